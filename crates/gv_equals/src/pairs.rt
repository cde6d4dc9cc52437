//! What is compared of two values that are entered.

ghost use Rattle.std.specs.Prelude.{◌≡◌, IfOk, OnOk};
ghost use Rattle.gv_heap.specs.Heap.{object_at};
ghost use Rattle.gv_equals.specs.Pairs as spec;

use crate::stage::Same;
use gv_base::{ObjId, OutOfMemory, Value};
use gv_code::Stack;
use gv_heap::{Entries, Heap, Object, Slot};
use gv_rows::Sequence;

/// Puts the pairs of two objects.
pub(crate) fn put_opened(
    heap: &Heap,
    left: ObjId,
    right: ObjId,
    todo: &mut Stack<Same>,
) -> Result<(), OutOfMemory>
    ensures { OnOk result (todo.new ≡ spec.opened (object_at heap.now left) (object_at heap.now right) todo.old) }
{
    match (heap.get(left), heap.get(right)) {
        (Some(Object::Map(left)), Some(Object::Map(right))) => put_entries(left, right, todo),
        _ => put_elements(&Sequence::at(heap, left), &Sequence::at(heap, right), todo),
    }
}

fn put_elements(
    left: &Sequence,
    right: &Sequence,
    todo: &mut Stack<Same>,
) -> Result<(), OutOfMemory>
    ensures { OnOk result (todo.new ≡ spec.elements left.now right.now todo.old) }
{
    let mut at = left.len().min(right.len());
    while at > 0 {
        at -= 1;
        todo.push(Same::Pair {
            left: left.get(at),
            right: right.get(at),
        })?;
    }
    Ok(())
}

fn put_entries(left: &Entries, right: &Entries, todo: &mut Stack<Same>) -> Result<(), OutOfMemory>
    ensures { OnOk result (todo.new ≡ spec.entries left.now right.now todo.old) }
{
    let mut at = left.len();
    while at > 0 {
        at -= 1;
        let (key, slot) = left.at(at);
        todo.push(entry(slot, right.get(key)))?;
    }
    Ok(())
}

fn entry(slot: Slot, right: Option<Value>) -> Same
    ensures { result ≡ spec.entry slot right }
{
    match right {
        Some(right) => Same::Pair {
            left: slot.value,
            right,
        },
        None => Same::Alone,
    }
}
