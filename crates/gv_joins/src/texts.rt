//! The texts of elements, with a separator between.

ghost use Rattle.std.specs.Prelude.{◌≡◌, IfOk, string_bytes};
ghost use Rattle.gv_joins.specs.Texts as spec;

use crate::join::{Join, Joining, Outcome};
use gv_base::{Names, OutOfMemory, Text, Value};
use gv_classes::Classes;
use gv_elements::Elements;
use gv_heap::Heap;
use gv_texts::{Question, TextTurn, TextWalk, resume_text, start_text};
use std::alloc::Global;

/// Says all elements, up to the first question.
pub(crate) fn begin(
    alloc: Global,
    names: &Names,
    classes: &Classes,
    heap: &Heap,
    separator: Text,
    source: Elements,
) -> Result<Outcome, OutOfMemory>
    ensures { IfOk result (λ outcome. outcome ≡ spec.all_said names.now classes.now heap.now separator source) }
{
    let text = Text::new(String::new(alloc));
    match source.next() {
        None => Ok(Outcome::MakesText(text)),
        Some((value, rest)) => {
            let turn = start_text(alloc, names, classes, heap, value)?;
            go_on(alloc, names, classes, heap, separator, text, rest, turn)
        }
    }
}

/// Goes on behind the answer about the text of an element.
pub(crate) fn resumed(
    alloc: Global,
    names: &Names,
    classes: &Classes,
    heap: &Heap,
    joining: Joining,
    answer: Value,
) -> Result<Outcome, OutOfMemory>
    ensures { IfOk result (λ outcome. outcome ≡ spec.resumed names.now classes.now heap.now joining answer) }
{
    let Joining {
        separator,
        text,
        source,
        walk,
    } = joining;
    let turn = resume_text(alloc, names, classes, heap, walk, answer)?;
    go_on(alloc, names, classes, heap, separator, text, source, turn)
}

/// Goes on behind a turn of an element's text.
fn go_on(
    alloc: Global,
    names: &Names,
    classes: &Classes,
    heap: &Heap,
    separator: Text,
    text: Text,
    source: Elements,
    turn: TextTurn,
) -> Result<Outcome, OutOfMemory>
    ensures { IfOk result (λ outcome. outcome ≡ spec.said_by separator source (spec.until_asked names.now classes.now heap.now separator source) turn text) }
{
    match turn {
        TextTurn::Text(said) => {
            let mut text = text.text;
            text.push_str(said.as_str())?;
            until_asked(alloc, names, classes, heap, separator, source, text)
        }
        TextTurn::Asks {
            walk,
            receiver,
            question,
        } => Ok(asks(separator, text, source, walk, receiver, question)),
    }
}

/// Says the elements behind the first one, up to the next question.
fn until_asked(
    alloc: Global,
    names: &Names,
    classes: &Classes,
    heap: &Heap,
    separator: Text,
    source: Elements,
    text: String,
) -> Result<Outcome, OutOfMemory>
    ensures { IfOk result (λ outcome. outcome ≡ spec.until_asked names.now classes.now heap.now separator source (string_bytes text)) }
{
    let mut source = source;
    let mut text = text;
    while let Some((value, behind)) = source.next() {
        source = behind;
        text.push_str(separator.as_str())?;
        match start_text(alloc, names, classes, heap, value)? {
            TextTurn::Text(said) => text.push_str(said.as_str())?,
            TextTurn::Asks {
                walk,
                receiver,
                question,
            } => {
                let text = Text::new(text);
                return Ok(asks(separator, text, source, walk, receiver, question));
            }
        }
    }
    Ok(Outcome::MakesText(Text::new(text)))
}

/// An element's text asks.
fn asks(
    separator: Text,
    text: Text,
    source: Elements,
    walk: TextWalk,
    receiver: Value,
    question: Question,
) -> Outcome
    ensures { result ≡ spec.asking separator text source walk receiver question }
{
    let joining = Joining {
        separator,
        text,
        source,
        walk,
    };
    Outcome::Asks {
        join: Join::Text(joining),
        receiver,
        question,
    }
}
