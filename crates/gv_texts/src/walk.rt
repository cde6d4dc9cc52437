//! The turns of a text walk.

ghost use Rattle.std.specs.Prelude.{◌≡◌, IfOk, OnOk, string_bytes};
ghost use Rattle.gv_texts.specs.Texts.{inner_started, started, resumed, until_asked, asking, id_of, pair};
ghost use Rattle.gv_texts.specs.declared.todo.Pending.TheVariants.{Entry};

use crate::opened::{put_opened, put_root};
use crate::question::Question;
use crate::said::{Said, say};
use crate::todo::{Mark, Pending, Todo, inner};
use gv_base::{Names, OutOfMemory, Text, Value};
use gv_classes::Classes;
use gv_code::Stack;
use gv_heap::Heap;
use std::alloc::Global;

/// What a walk comes to.
#[derive(Debug, Drop)]
pub enum TextTurn {
    /// The text.
    Text(Text),
    /// A value is asked.
    Asks {
        walk: TextWalk,
        receiver: Value,
        question: Question,
    },
}

/// A walk that has asked.
#[derive(Debug, Drop)]
pub struct TextWalk {
    pub pending: Pending,
    /// What is still to say.
    pub todo: Stack<Todo>,
    /// What was said.
    pub text: Text,
    /// How many values around are entered, with the one that it asks to enter.
    pub inside: usize,
}

/// The first turn of the text of a value.
pub fn start_text(
    alloc: Global,
    names: &Names,
    classes: &Classes,
    heap: &Heap,
    value: Value,
) -> Result<TextTurn, OutOfMemory>
    ensures { IfOk result (λ turn. turn ≡ started names.now classes.now heap.now value) }
{
    let mut todo = Stack::new(alloc);
    put_root(alloc, heap, value, &mut todo)?;
    until_asked(names, classes, heap, todo, String::new(alloc), 0)
}

/// The first turn of the text of a value that lies in another one.
pub fn start_inner_text(
    alloc: Global,
    names: &Names,
    classes: &Classes,
    heap: &Heap,
    value: Value,
) -> Result<TextTurn, OutOfMemory>
    ensures { IfOk result (λ turn. turn ≡ inner_started names.now classes.now heap.now value) }
{
    let mut todo = Stack::new(alloc);
    todo.push(inner(value)?)?;
    until_asked(names, classes, heap, todo, String::new(alloc), 0)
}

/// The turn behind the answer to a question.
pub fn resume_text(
    alloc: Global,
    names: &Names,
    classes: &Classes,
    heap: &Heap,
    walk: TextWalk,
    answer: Value,
) -> Result<TextTurn, OutOfMemory>
    ensures { IfOk result (λ turn. turn ≡ resumed names.now classes.now heap.now walk answer) }
{
    let TextWalk {
        pending,
        mut todo,
        text,
        inside,
    } = walk;
    match pending {
        Pending::Answer => todo.push(inner(answer)?)?,
        Pending::Entry(id) => {
            todo.push(Todo::Leave)?;
            put_opened(alloc, heap, id, &mut todo)?;
        }
    }
    until_asked(names, classes, heap, todo, text.text, inside)
}

/// Says things up to the next question.
fn until_asked(
    names: &Names,
    classes: &Classes,
    heap: &Heap,
    todo: Stack<Todo>,
    text: String,
    inside: usize,
) -> Result<TextTurn, OutOfMemory>
    ensures { IfOk result (λ turn. turn ≡ until_asked names.now classes.now heap.now todo (string_bytes text) inside) }
{
    let mut todo = todo;
    let mut text = text;
    let mut inside = inside;
    while let Some(next) = todo.pop() {
        match next {
            Todo::Mark(mark) => text.push_str(mark.text())?,
            Todo::Piece(piece) => text.push_str(piece.as_str())?,
            Todo::Leave => inside = inside.saturating_sub(1),
            Todo::Lazy(closure) => {
                return Ok(asks(
                    Pending::Answer,
                    todo,
                    text,
                    inside,
                    Value::Obj(closure),
                    Question::Call,
                ));
            }
            Todo::Inner { level, value } => match say(names, classes, heap, value, &mut text)? {
                Said::Done => {}
                Said::Pairs(key, value) => put_pair(level, key, value, &mut todo)?,
                Said::Opens => {
                    let inside = inside.checked_add(1).ok_or(OutOfMemory)?;
                    return Ok(asks(entry_to(value), todo, text, inside, value, Question::Enter));
                }
                Said::Asked => {
                    return Ok(asks(
                        Pending::Answer,
                        todo,
                        text,
                        inside,
                        value,
                        Question::ToString,
                    ));
                }
            },
        }
    }
    Ok(TextTurn::Text(Text::new(text)))
}

/// A walk that has asked a value.
fn asks(
    pending: Pending,
    todo: Stack<Todo>,
    text: String,
    inside: usize,
    receiver: Value,
    question: Question,
) -> TextTurn
    ensures { result ≡ asking pending todo (string_bytes text) inside receiver question }
{
    TextTurn::Asks {
        walk: TextWalk {
            pending,
            todo,
            text: Text::new(text),
            inside,
        },
        receiver,
        question,
    }
}

fn entry_to(value: Value) -> Pending
    ensures { result ≡ Entry (id_of value) }
{
    match value {
        Value::Obj(id) => Pending::Entry(id),
        _ => Pending::Entry(0),
    }
}

/// Puts an entry's key and value, unless more entries lie in each other than were made before them.
fn put_pair(
    level: usize,
    key: Value,
    value: Value,
    todo: &mut Stack<Todo>,
) -> Result<(), OutOfMemory>
    ensures { OnOk result (todo.new ≡ pair level key value todo.old) }
{
    if level > 0 {
        let level = level - 1;
        todo.push(Todo::Inner { level, value })?;
        todo.push(Todo::Mark(Mark::Equals))?;
        todo.push(Todo::Inner { level, value: key })?;
    }
    Ok(())
}
