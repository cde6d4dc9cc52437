ghost use Rattle.std.specs.Prelude.{◌≡◌, ◌∷◌, ◌++◌, [], length, IfOk};
ghost use Rattle.gv_rows.specs.Reply.{Did};
ghost use Rattle.gv_heap.specs.Heap.{object_at};
ghost use Rattle.gv_rows.specs.Reply as reply;
ghost use Rattle.gv_rows.specs.Takes as takes;
ghost use Rattle.gv_rows.specs.Values.{sequence_at};
ghost use Rattle.gv_lists.specs.Joining as spec;

use crate::answers::answer;
use crate::parts::{is_product_too_dear, is_sum_too_dear};
use crate::throwing::throw_negative;
use gv_base::{ObjId, OutOfMemory, Value};
use gv_heap::{Heap, Object};
use gv_rows::{Done, Sequence, natural, new_list};
use std::alloc::Global;

/// The elements, and behind them those of a List or a Range, or any other value.
pub(crate) fn plus(alloc: Global, heap: &mut Heap, list: ObjId, x: Value) -> Done
    ensures { Did heap.old (spec.plus_reply heap.old (sequence_at heap.old list) x) result heap.new }
{
    match x {
        Value::Obj(other) => plus_object(alloc, heap, list, other),
        _ => plus_one(alloc, heap, list, x),
    }
}

fn plus_object(alloc: Global, heap: &mut Heap, list: ObjId, other: ObjId) -> Done
    ensures { Did heap.old (spec.plus_reply heap.old (sequence_at heap.old list) (Value.Obj other)) result heap.new }
{
    if is_sequence(heap, other) {
        plus_sequence(alloc, heap, list, other)
    } else {
        plus_one(alloc, heap, list, Value::Obj(other))
    }
}

/// Whether an object is a List or a Range.
fn is_sequence(heap: &Heap, id: ObjId) -> bool
    ensures { result ≡ takes.is_sequence (object_at heap.now id) }
{
    matches!(heap.get(id), Some(Object::List(_) | Object::Range(_)))
}

fn plus_one(alloc: Global, heap: &mut Heap, list: ObjId, x: Value) -> Done
    ensures { Did heap.old (reply.new_list heap.old (sequence_at heap.old list ++ x ∷ [])) result heap.new }
{
    let items = Sequence::at(heap, list);
    if is_sum_too_dear(heap, items.len(), 1) {
        return Done::CellsSpent;
    }
    match with_last(alloc, &items, x) {
        Ok(items) => new_list(heap, items),
        Err(_) => Done::OutOfMemory,
    }
}

fn with_last(alloc: Global, items: &Sequence, x: Value) -> Result<Vec<Value>, OutOfMemory>
    ensures { IfOk result (λ all. all.items ≡ items.now ++ x ∷ []) }
{
    let mut all = items.copy(alloc, 0, items.len())?;
    all.push(x)?;
    Ok(all)
}

fn plus_sequence(alloc: Global, heap: &mut Heap, list: ObjId, other: ObjId) -> Done
    ensures { Did heap.old (reply.new_list heap.old (sequence_at heap.old list ++ sequence_at heap.old other)) result heap.new }
{
    let items = Sequence::at(heap, list);
    let more = Sequence::at(heap, other);
    if is_sum_too_dear(heap, items.len(), more.len()) {
        return Done::CellsSpent;
    }
    match joined(alloc, &items, &more) {
        Ok(items) => new_list(heap, items),
        Err(_) => Done::OutOfMemory,
    }
}

fn joined(alloc: Global, items: &Sequence, more: &Sequence) -> Result<Vec<Value>, OutOfMemory>
    ensures { IfOk result (λ all. all.items ≡ items.now ++ more.now) }
{
    let mut all = items.copy(alloc, 0, items.len())?;
    let rest = more.copy(alloc, 0, more.len())?;
    all.extend_from_slice(rest.as_slice())?;
    Ok(all)
}

/// The elements so many times.
pub(crate) fn multiply(alloc: Global, heap: &mut Heap, list: ObjId, n: Option<i64>) -> Done
    ensures { Did heap.old (spec.multiply_reply heap.old (sequence_at heap.old list) n) result heap.new }
{
    match n {
        None => answer(heap, Value::Null),
        Some(n) => multiply_by(alloc, heap, list, n, natural(n)),
    }
}

fn multiply_by(alloc: Global, heap: &mut Heap, list: ObjId, n: i64, count: Option<usize>) -> Done
    ensures { Did heap.old (spec.multiply_by heap.old (sequence_at heap.old list) n count) result heap.new }
{
    match count {
        None => throw_negative(alloc, n),
        Some(count) => new_repeated(alloc, heap, list, count),
    }
}

#[tactic(auto, using(crate::proofs::Lists::length_repeated))]
fn new_repeated(alloc: Global, heap: &mut Heap, list: ObjId, count: usize) -> Done
    ensures { Did heap.old (reply.new_list heap.old (spec.repeated count (sequence_at heap.old list))) result heap.new }
{
    let items = Sequence::at(heap, list);
    if is_product_too_dear(heap, count, items.len()) {
        return Done::CellsSpent;
    }
    match repeated(alloc, &items, count) {
        Ok(items) => new_list(heap, items),
        Err(_) => Done::OutOfMemory,
    }
}

#[tactic(auto, using(crate::proofs::Lists::repeated_none))]
fn repeated(alloc: Global, items: &Sequence, count: usize) -> Result<Vec<Value>, OutOfMemory>
    ensures { IfOk result (λ all. all.items ≡ spec.repeated count items.now) }
{
    if items.len() == 0 {
        return Ok(Vec::new(alloc));
    }
    let items = items.copy(alloc, 0, items.len())?;
    repeat(alloc, items.as_slice(), count)
}

#[tactic(auto, using(crate::proofs::Lists::repeated_more))]
fn repeat(alloc: Global, items: &[Value], count: usize) -> Result<Vec<Value>, OutOfMemory>
    ensures { IfOk result (λ all. all.items ≡ spec.repeated count items.now) }
{
    let mut all = Vec::new(alloc);
    for _ in 0..count {
        all.extend_from_slice(items)?;
    }
    Ok(all)
}
