//! Elements, with those of inner lists and ranges in their places.

ghost use Rattle.std.specs.Prelude.{◌≡◌, IfOk, OnOk};
ghost use Rattle.gv_rows.specs.Values.{sequence_at};
ghost use Rattle.gv_heap.specs.Heap.{object_at};
ghost use Rattle.gv_joins.specs.Flat as spec;

use crate::join::{Flattening, Join, Outcome, Todo};
use gv_base::{ObjId, OutOfMemory, Value};
use gv_code::Stack;
use gv_heap::{Heap, Object};
use gv_rows::Sequence;
use gv_texts::Question;
use std::alloc::Global;

/// Takes the elements of an object, up to the first question.
pub(crate) fn begin(alloc: Global, heap: &Heap, id: ObjId) -> Result<Outcome, OutOfMemory>
    ensures { IfOk result (λ outcome. outcome ≡ spec.started heap.now id) }
{
    let mut todo = Stack::new(alloc);
    put_elements(&Sequence::at(heap, id), &mut todo)?;
    until_asked(heap, todo, Stack::new(alloc), 0)
}

/// Enters the object that was asked about.
pub(crate) fn resumed(heap: &Heap, flat: Flattening) -> Result<Outcome, OutOfMemory>
    ensures { IfOk result (λ outcome. outcome ≡ spec.resumed heap.now flat) }
{
    let Flattening {
        id,
        mut todo,
        values,
        inside,
    } = flat;
    todo.push(Todo::Leave)?;
    put_elements(&Sequence::at(heap, id), &mut todo)?;
    until_asked(heap, todo, values, inside)
}

/// Puts elements, the first one on top.
fn put_elements(elements: &Sequence, todo: &mut Stack<Todo>) -> Result<(), OutOfMemory>
    ensures { OnOk result (todo.new ≡ spec.opened elements.now todo.old) }
{
    let mut at = elements.len();
    while at > 0 {
        at -= 1;
        todo.push(Todo::Inner(elements.get(at)))?;
    }
    Ok(())
}

/// Takes values up to the next question.
fn until_asked(
    heap: &Heap,
    todo: Stack<Todo>,
    values: Stack<Value>,
    inside: usize,
) -> Result<Outcome, OutOfMemory>
    ensures { IfOk result (λ outcome. outcome ≡ spec.until_asked heap.now todo values inside) }
{
    let mut todo = todo;
    let mut values = values;
    let mut inside = inside;
    while let Some(next) = todo.pop() {
        match next {
            Todo::Leave => inside = inside.saturating_sub(1),
            Todo::Inner(value) => match inner_sequence(heap, value) {
                None => values.push(value)?,
                Some(id) => return asks(id, todo, values, inside),
            },
        }
    }
    Ok(Outcome::MakesList(values))
}

/// The number of a list or a range.
fn inner_sequence(heap: &Heap, value: Value) -> Option<ObjId>
    ensures { result ≡ spec.inner_sequence heap.now value }
{
    match value {
        Value::Obj(id) => object_sequence(heap, id),
        _ => None,
    }
}

fn object_sequence(heap: &Heap, id: ObjId) -> Option<ObjId>
    ensures { result ≡ spec.object_sequence id (object_at heap.now id) }
{
    match heap.get(id) {
        Some(Object::List(_) | Object::Range(_)) => Some(id),
        _ => None,
    }
}

/// Asks to enter an inner list or range.
fn asks(
    id: ObjId,
    todo: Stack<Todo>,
    values: Stack<Value>,
    inside: usize,
) -> Result<Outcome, OutOfMemory>
    ensures { IfOk result (λ outcome. outcome ≡ spec.entering id todo values inside) }
{
    let flat = Flattening {
        id,
        todo,
        values,
        inside: inside.checked_add(1).ok_or(OutOfMemory)?,
    };
    Ok(Outcome::Asks {
        join: Join::Flat(flat),
        receiver: Value::Obj(id),
        question: Question::Enter,
    })
}
