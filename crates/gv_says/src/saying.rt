//! The turns of a method that comes to a text.

ghost use Rattle.std.specs.Prelude.{◌≡◌, ◌++◌, IfOk, string_bytes};
ghost use Rattle.gv_says.specs.Says as spec;

use gv_base::{Names, OutOfMemory, Text, Value};
use gv_classes::Classes;
use gv_heap::{Heap, HeapError};
use gv_search::without_first;
use gv_texts::{Question, TextTurn, TextWalk, resume_text, start_text};
use std::alloc::Global;

/// What is done with the text.
#[derive(Debug, Drop)]
pub enum Then {
    /// It is printed with a line end.
    Line,
    Print,
    /// It is answered as a new String.
    New,
    /// A new String of another text, and it behind that.
    Behind(Text),
    /// A new String of another text without the first place at which it stands there.
    Without(Text),
}

/// A method that has asked.
#[derive(Debug, Drop)]
pub struct Saying {
    pub walk: TextWalk,
    pub then: Then,
}

/// What a method comes to.
#[derive(Debug, Drop)]
pub enum SaidTurn {
    /// A value is asked.
    Asks {
        saying: Saying,
        receiver: Value,
        question: Question,
    },
    /// The text is printed, and the method answers null.
    Print(Text),
    /// The method answers.
    Done(Value),
    /// What is to be made costs more cells than are left.
    CellsSpent,
}

/// The first turn of a method, by the value whose text it takes.
pub fn start_saying(
    alloc: Global,
    names: &Names,
    classes: &Classes,
    heap: &mut Heap,
    value: Value,
    then: Then,
) -> Result<SaidTurn, OutOfMemory>
    ensures { spec.Turns heap.old (spec.started names.now classes.now heap.old value then) result heap.new }
{
    let turn = start_text(alloc, names, classes, heap, value)?;
    go_on(alloc, heap, then, turn)
}

/// The turn behind the answer to a question.
pub fn resume_saying(
    alloc: Global,
    names: &Names,
    classes: &Classes,
    heap: &mut Heap,
    saying: Saying,
    answer: Value,
) -> Result<SaidTurn, OutOfMemory>
    ensures { spec.Turns heap.old (spec.resumed names.now classes.now heap.old saying answer) result heap.new }
{
    let Saying { walk, then } = saying;
    let turn = resume_text(alloc, names, classes, heap, walk, answer)?;
    go_on(alloc, heap, then, turn)
}

/// The turn behind a turn of the text.
fn go_on(
    alloc: Global,
    heap: &mut Heap,
    then: Then,
    turn: TextTurn,
) -> Result<SaidTurn, OutOfMemory>
    ensures { spec.Turns heap.old (spec.going then turn) result heap.new }
{
    match turn {
        TextTurn::Text(said) => ended(alloc, heap, then, said),
        TextTurn::Asks {
            walk,
            receiver,
            question,
        } => Ok(SaidTurn::Asks {
            saying: Saying { walk, then },
            receiver,
            question,
        }),
    }
}

/// What a method comes to, by the text.
fn ended(alloc: Global, heap: &mut Heap, then: Then, said: Text) -> Result<SaidTurn, OutOfMemory>
    ensures { spec.Turns heap.old (spec.ended then said) result heap.new }
{
    match then {
        Then::Line => Ok(SaidTurn::Print(joined(said, "\n")?)),
        Then::Print => Ok(SaidTurn::Print(said)),
        Then::New => new_text(heap, said.as_str()),
        Then::Behind(front) => new_text(heap, joined(front, said.as_str())?.as_str()),
        Then::Without(whole) => {
            new_text(
                heap,
                without_first(alloc, whole.as_str(), said.as_str())?.as_str(),
            )
        }
    }
}

/// A text with another one behind it.
fn joined(front: Text, behind: &str) -> Result<Text, OutOfMemory>
    ensures { IfOk result (λ text. text ≡ front ++ behind.now) }
{
    let mut text = front.text;
    text.push_str(behind)?;
    Ok(Text::new(text))
}

fn new_text(heap: &mut Heap, text: &str) -> Result<SaidTurn, OutOfMemory>
    ensures { spec.Turns heap.old (spec.MakesText text.now) result heap.new }
{
    match heap.make_text(text) {
        Ok(id) => Ok(SaidTurn::Done(Value::Obj(id))),
        Err(HeapError::CellsSpent) => Ok(SaidTurn::CellsSpent),
        Err(HeapError::OutOfMemory) => Err(OutOfMemory),
    }
}
