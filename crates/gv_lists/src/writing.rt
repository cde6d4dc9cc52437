ghost use Rattle.std.specs.Prelude.{◌≡◌, ◌≤◌, ◌∷◌, ◌++◌, [], insert, length, replicate, IfOk, OnOk};
ghost use Rattle.gv_heap.specs.Heap.{list_at, object_at, with_list};
ghost use Rattle.gv_heap.specs.Kinds.{IsListObject};
ghost use Rattle.gv_rows.specs.Reply.{Answers, Did};
ghost use Rattle.gv_rows.specs.Values.{sequence_at};
ghost use Rattle.gv_rows.specs.Values as values;
ghost use Rattle.gv_lists.specs.Writing as spec;

use crate::answers::{answer, place_in};
use crate::throwing::{throw_empty, throw_outside};
use gv_base::{ObjId, OutOfMemory, Value};
use gv_heap::{Heap, HeapError};
use gv_rows::{Done, Sequence, natural};
use std::alloc::Global;

/// Puts an element last, and answers a value.
pub(crate) fn push(heap: &mut Heap, list: ObjId, x: Value, answer: Value) -> Done
    requires { IsListObject (object_at heap.old list) }
    ensures { Did heap.old (spec.appended heap.old list (x ∷ []) answer) result heap.new }
{
    match heap.push(list, x) {
        Ok(()) => Done::Value(answer),
        Err(HeapError::CellsSpent) => Done::CellsSpent,
        Err(HeapError::OutOfMemory) => Done::OutOfMemory,
    }
}

/// Puts elements last, for their whole price or not at all, and answers a value.
fn append(heap: &mut Heap, list: ObjId, new: &[Value], answer: Value) -> Done
    requires { IsListObject (object_at heap.old list) }
    ensures { Did heap.old (spec.appended heap.old list new.now answer) result heap.new }
{
    if heap.cells_left() < new.len() as u64 {
        return Done::CellsSpent;
    }
    match push_each(heap, list, new) {
        Ok(()) => Done::Value(answer),
        Err(_) => Done::OutOfMemory,
    }
}

/// Puts elements last, for as long as they can be paid.
#[tactic(auto, using(crate::proofs::Heaps::growing))]
fn push_each(heap: &mut Heap, list: ObjId, new: &[Value]) -> Result<(), OutOfMemory>
    requires { IsListObject (object_at heap.old list) }
    ensures { OnOk result (heap.new ≡ spec.grown heap.old list new.now) }
{
    for x in new {
        push_one(heap, list, *x)?;
    }
    Ok(())
}

/// Puts an element last.
fn push_one(heap: &mut Heap, list: ObjId, x: Value) -> Result<(), OutOfMemory>
    requires { IsListObject (object_at heap.old list) }
    ensures { OnOk result (heap.new ≡ spec.grown heap.old list (x ∷ [])) }
{
    match heap.push(list, x) {
        Ok(()) => Ok(()),
        Err(_) => Err(OutOfMemory),
    }
}

/// Puts the elements of a List or a Range last, as they are at the start.
pub(crate) fn add_all(alloc: Global, heap: &mut Heap, list: ObjId, from: Value) -> Done
    requires { IsListObject (object_at heap.old list) }
    ensures { Did heap.old (spec.add_all_reply heap.old list (spec.elements_in_value heap.old from)) result heap.new }
{
    match from {
        Value::Obj(from) => add_sequence(alloc, heap, list, from),
        _ => append(heap, list, &[], Value::Bool(false)),
    }
}

fn add_sequence(alloc: Global, heap: &mut Heap, list: ObjId, from: ObjId) -> Done
    requires { IsListObject (object_at heap.old list) }
    ensures { Did heap.old (spec.add_all_reply heap.old list (sequence_at heap.old from)) result heap.new }
{
    let items = Sequence::at(heap, from);
    let count = items.len();
    if heap.cells_left() < count as u64 {
        return Done::CellsSpent;
    }
    match items.copy(alloc, 0, count) {
        Ok(new) => append(heap, list, new.as_slice(), Value::Bool(count != 0)),
        Err(_) => Done::OutOfMemory,
    }
}

/// Takes the last element out, and answers it.
#[tactic(auto, using(crate::proofs::Heaps::did_changed))]
pub(crate) fn pop(alloc: Global, heap: &mut Heap, list: ObjId, name: &str) -> Done
    requires { IsListObject (object_at heap.old list) }
    ensures { Did heap.old (spec.pop_reply heap.old list name.now) result heap.new }
{
    let size = heap.list(list).len();
    if size == 0 {
        throw_empty(alloc, name)
    } else {
        Done::Value(heap.remove_item(list, size - 1))
    }
}

/// Puts an element at a place, for one that is there or past the end.
pub(crate) fn put(alloc: Global, heap: &mut Heap, list: ObjId, place: Value, x: Value) -> Done
    requires { IsListObject (object_at heap.old list) }
    ensures { Did heap.old (spec.put_reply heap.old list place x) result heap.new }
{
    match place {
        Value::Int(n) => {
            let given = i64::from(n);
            let size = heap.list(list).len();
            match place_in(size, given) {
                None => throw_outside(alloc, given, size),
                Some(at) => put_at(alloc, heap, list, at, x),
            }
        }
        _ => answer(heap, Value::Null),
    }
}

#[tactic(auto, using(crate::proofs::Heaps::did_changed))]
fn put_at(alloc: Global, heap: &mut Heap, list: ObjId, at: usize, x: Value) -> Done
    requires { IsListObject (object_at heap.old list) }
    ensures { Did heap.old (spec.put_in heap.old list at x) result heap.new }
{
    let size = heap.list(list).len();
    if at < size {
        heap.set_item(list, at, x);
        Done::Value(Value::Null)
    } else {
        put_past(alloc, heap, list, at - size, x)
    }
}

/// Puts an element last, behind so many nulls.
fn put_past(alloc: Global, heap: &mut Heap, list: ObjId, nulls: usize, x: Value) -> Done
    requires { IsListObject (object_at heap.old list) }
    ensures { Did heap.old (spec.appended heap.old list (replicate nulls Value.Null ++ x ∷ []) Value.Null) result heap.new }
{
    if heap.cells_left() <= nulls as u64 {
        return Done::CellsSpent;
    }
    match after_nulls(alloc, nulls, x) {
        Ok(new) => append(heap, list, new.as_slice(), Value::Null),
        Err(_) => Done::OutOfMemory,
    }
}

/// An element behind so many nulls.
fn after_nulls(alloc: Global, nulls: usize, x: Value) -> Result<Vec<Value>, OutOfMemory>
    ensures { IfOk result (λ items. items.items ≡ replicate nulls Value.Null ++ x ∷ []) }
{
    let mut items = vec![in alloc; Value::Null; nulls]?;
    items.push(x)?;
    Ok(items)
}

/// Puts an element before the one at a place, or at the end.
pub(crate) fn insert(alloc: Global, heap: &mut Heap, list: ObjId, place: Value, x: Value) -> Done
    requires { IsListObject (object_at heap.old list) }
    ensures { Did heap.old (spec.insert_reply heap.old list place x) result heap.new }
{
    match place {
        Value::Int(n) => insert_at(alloc, heap, list, i64::from(n), x),
        _ => answer(heap, Value::Null),
    }
}

fn insert_at(alloc: Global, heap: &mut Heap, list: ObjId, given: i64, x: Value) -> Done
    requires { IsListObject (object_at heap.old list) }
    ensures { Did heap.old (spec.insert_at heap.old list given x (values.natural given)) result heap.new }
{
    let size = heap.list(list).len();
    match natural(given) {
        Some(at) => {
            if at <= size {
                insert_within(heap, list, at, x)
            } else {
                throw_outside(alloc, given, size)
            }
        }
        None => throw_outside(alloc, given, size),
    }
}

fn insert_within(heap: &mut Heap, list: ObjId, at: usize, x: Value) -> Done
    requires kind { IsListObject (object_at heap.old list) }
    requires place { at ≤ length (list_at heap.old list) }
    ensures { Did heap.old (Answers Value.Null 1 (with_list heap.old list (insert (list_at heap.old list) at x))) result heap.new }
{
    match heap.insert(list, at, x) {
        Ok(()) => Done::Value(Value::Null),
        Err(HeapError::CellsSpent) => Done::CellsSpent,
        Err(HeapError::OutOfMemory) => Done::OutOfMemory,
    }
}

/// Takes all elements out.
#[tactic(auto, using(crate::proofs::Heaps::did_changed))]
pub(crate) fn clear(heap: &mut Heap, list: ObjId) -> Done
    requires { IsListObject (object_at heap.old list) }
    ensures { Did heap.old (spec.clear_reply heap.old list) result heap.new }
{
    heap.clear(list);
    Done::Value(Value::Null)
}
