//! The turns.

ghost use Rattle.std.specs.Prelude.{◌≡◌, IfOk, IfSome, IsTrue, reverse};
ghost use Rattle.gv_rows.specs.Values.{sequence_at};
ghost use Rattle.gv_joins.specs.Joins as spec;

use crate::join::{Join, Outcome};
use crate::sum::{add_next, sum};
use crate::{flat, texts};
use gv_base::{Names, ObjId, OutOfMemory, Text, Value};
use gv_classes::Classes;
use gv_code::Stack;
use gv_elements::Elements;
use gv_heap::{Heap, HeapError};
use gv_texts::Question;
use std::alloc::Global;

/// What a method comes to.
#[derive(Debug, Drop)]
pub enum JoinTurn {
    /// The receiver is asked `plus` of the argument.
    Adds {
        join: Join,
        receiver: Value,
        argument: Value,
    },
    /// A value is asked.
    Asks {
        join: Join,
        receiver: Value,
        question: Question,
    },
    /// The method answers.
    Done(Value),
    /// What is to be made costs more cells than are left.
    CellsSpent,
}

/// The first turn of `sum` of a list or a range, as it is now; of nothing, where it is another object.
pub fn start_sum(alloc: Global, heap: &mut Heap, id: ObjId) -> Result<JoinTurn, OutOfMemory>
    ensures { spec.Turns heap.old (spec.sum_started heap.old id) result heap.new }
{
    let outcome = sum(Elements::at(alloc, heap, id)?);
    turn_of(alloc, heap, outcome)
}

/// The first turn of `join` with a separator.
pub fn start_join(
    alloc: Global,
    names: &Names,
    classes: &Classes,
    heap: &mut Heap,
    id: ObjId,
    separator: Text,
) -> Result<JoinTurn, OutOfMemory>
    ensures { spec.Turns heap.old (spec.join_started names.now classes.now heap.old id separator) result heap.new }
{
    let elements = Elements::at(alloc, heap, id)?;
    let outcome = texts::begin(alloc, names, classes, heap, separator, elements)?;
    turn_of(alloc, heap, outcome)
}

/// The first turn of `flatten`.
pub fn start_flatten(alloc: Global, heap: &mut Heap, id: ObjId) -> Result<JoinTurn, OutOfMemory>
    ensures { spec.Turns heap.old (spec.flatten_started heap.old id) result heap.new }
{
    let outcome = flat::begin(alloc, heap, id)?;
    turn_of(alloc, heap, outcome)
}

/// The turn behind the answer to a question, or behind a sum.
pub fn resume_join(
    alloc: Global,
    names: &Names,
    classes: &Classes,
    heap: &mut Heap,
    join: Join,
    answer: Value,
) -> Result<JoinTurn, OutOfMemory>
    ensures { spec.Turns heap.old (spec.resumed names.now classes.now heap.old join answer) result heap.new }
{
    let outcome = resumed(alloc, names, classes, heap, join, answer)?;
    turn_of(alloc, heap, outcome)
}

/// What a method comes to behind an answer.
fn resumed(
    alloc: Global,
    names: &Names,
    classes: &Classes,
    heap: &Heap,
    join: Join,
    answer: Value,
) -> Result<Outcome, OutOfMemory>
    ensures { IfOk result (λ outcome. outcome ≡ spec.resumed names.now classes.now heap.now join answer) }
{
    match join {
        Join::Sum(elements) => Ok(add_next(answer, elements)),
        Join::Text(joining) => texts::resumed(alloc, names, classes, heap, joining, answer),
        Join::Flat(flat) => flat::resumed(heap, flat),
    }
}

/// Makes what is answered.
fn turn_of(alloc: Global, heap: &mut Heap, outcome: Outcome) -> Result<JoinTurn, OutOfMemory>
    ensures { spec.Turns heap.old outcome result heap.new }
{
    match outcome {
        Outcome::Adds {
            join,
            receiver,
            argument,
        } => Ok(JoinTurn::Adds {
            join,
            receiver,
            argument,
        }),
        Outcome::Asks {
            join,
            receiver,
            question,
        } => Ok(JoinTurn::Asks {
            join,
            receiver,
            question,
        }),
        Outcome::Answers(value) => Ok(JoinTurn::Done(value)),
        Outcome::MakesText(text) => new_text(heap, text.as_str()),
        Outcome::MakesList(values) => new_list(alloc, heap, &values),
    }
}

fn new_text(heap: &mut Heap, text: &str) -> Result<JoinTurn, OutOfMemory>
    ensures { spec.TextMade heap.old text.now result heap.new }
{
    match heap.make_text(text) {
        Ok(id) => Ok(JoinTurn::Done(Value::Obj(id))),
        Err(HeapError::CellsSpent) => Ok(JoinTurn::CellsSpent),
        Err(HeapError::OutOfMemory) => Err(OutOfMemory),
    }
}

/// A new list of values, of which the last one stands first.
fn new_list(alloc: Global, heap: &mut Heap, values: &Stack<Value>) -> Result<JoinTurn, OutOfMemory>
    ensures { spec.ListMade heap.old (reverse values.now) result heap.new }
{
    let elements = Vec::from_slice(alloc, values.last(values.len()))?;
    match heap.make_list(elements) {
        Ok(id) => Ok(JoinTurn::Done(Value::Obj(id))),
        Err(HeapError::CellsSpent) => Ok(JoinTurn::CellsSpent),
        Err(HeapError::OutOfMemory) => Err(OutOfMemory),
    }
}
