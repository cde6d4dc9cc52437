//! What is hashed of a value that is entered.

ghost use Rattle.std.specs.Prelude.{◌≡◌, OnOk};
ghost use Rattle.gv_heap.specs.Heap.{object_at};
ghost use Rattle.gv_hashes.specs.Opened as spec;

use crate::todo::Todo;
use gv_base::{ObjId, OutOfMemory};
use gv_code::Stack;
use gv_heap::{Entries, Heap, Object};
use gv_rows::Sequence;

/// Puts what is hashed of an object.
pub(crate) fn put_opened(heap: &Heap, id: ObjId, todo: &mut Stack<Todo>) -> Result<(), OutOfMemory>
    ensures { OnOk result (todo.new ≡ spec.opened (object_at heap.now id) todo.old) }
{
    match heap.get(id) {
        Some(Object::List(_) | Object::Range(_)) => put_elements(&Sequence::at(heap, id), todo),
        Some(Object::Map(entries)) => put_entries(entries, todo),
        _ => Ok(()),
    }
}

fn put_elements(elements: &Sequence, todo: &mut Stack<Todo>) -> Result<(), OutOfMemory>
    ensures { OnOk result (todo.new ≡ spec.sequence elements.now todo.old) }
{
    let mut at = elements.len();
    while at > 0 {
        at -= 1;
        todo.push(Todo::Element)?;
        todo.push(Todo::Inner(elements.get(at)))?;
    }
    Ok(todo.push(Todo::Start(1))?)
}

fn put_entries(entries: &Entries, todo: &mut Stack<Todo>) -> Result<(), OutOfMemory>
    ensures { OnOk result (todo.new ≡ spec.map entries.now todo.old) }
{
    let mut at = entries.len();
    while at > 0 {
        at -= 1;
        let (_, slot) = entries.at(at);
        todo.push(Todo::Entry)?;
        todo.push(Todo::Inner(slot.value))?;
        todo.push(Todo::Inner(slot.shown))?;
    }
    Ok(todo.push(Todo::Start(0))?)
}
