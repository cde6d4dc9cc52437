ghost use Rattle.std.specs.Prelude.{◌≡◌};
ghost use Rattle.gv_rows.specs.Reply.{Did};
ghost use Rattle.gv_rows.specs.Values.{sequence_at};
ghost use Rattle.gv_lists.specs.Reading as spec;

use crate::answers::{answer, element_in, place_in};
use crate::parts::{new_part, new_reverse};
use crate::picking::get_each;
use crate::throwing::{throw_empty, throw_outside};
use gv_base::{ObjId, Value};
use gv_heap::Heap;
use gv_rows::{Done, Sequence, integer_of, natural};
use std::alloc::Global;

/// How many elements there are.
pub(crate) fn size(heap: &Heap, list: ObjId) -> Done
    ensures { Did heap.now (spec.size_reply heap.now (sequence_at heap.now list)) result heap.now }
{
    answer(heap, integer_of(Sequence::at(heap, list).len()))
}

/// Whether there is none.
pub(crate) fn is_empty(heap: &Heap, list: ObjId) -> Done
    ensures { Did heap.now (spec.empty_reply heap.now (sequence_at heap.now list)) result heap.now }
{
    answer(heap, Value::Bool(Sequence::at(heap, list).len() == 0))
}

/// The first element.
pub(crate) fn first(alloc: Global, heap: &Heap, list: ObjId, name: &str) -> Done
    ensures { Did heap.now (spec.end_reply heap.now name.now (spec.first_of (sequence_at heap.now list))) result heap.now }
{
    let items = Sequence::at(heap, list);
    answer_end(alloc, heap, name, element_in(&items, 0))
}

/// The last element.
pub(crate) fn last(alloc: Global, heap: &Heap, list: ObjId, name: &str) -> Done
    ensures { Did heap.now (spec.end_reply heap.now name.now (spec.last_of (sequence_at heap.now list))) result heap.now }
{
    let items = Sequence::at(heap, list);
    answer_end(
        alloc,
        heap,
        name,
        element_in(&items, items.len().saturating_sub(1)),
    )
}

fn answer_end(alloc: Global, heap: &Heap, name: &str, item: Option<Value>) -> Done
    ensures { Did heap.now (spec.end_reply heap.now name.now item) result heap.now }
{
    match item {
        None => throw_empty(alloc, name),
        Some(item) => answer(heap, item),
    }
}

/// All but the first element.
pub(crate) fn tail(alloc: Global, heap: &mut Heap, list: ObjId, name: &str) -> Done
    ensures { Did heap.old (spec.tail_reply heap.old name.now (sequence_at heap.old list)) result heap.new }
{
    let size = Sequence::at(heap, list).len();
    if size == 0 {
        throw_empty(alloc, name)
    } else {
        new_part(alloc, heap, list, 1, size - 1)
    }
}

/// The first so many elements.
pub(crate) fn take(alloc: Global, heap: &mut Heap, list: ObjId, n: Option<i64>) -> Done
    ensures { Did heap.old (spec.take_reply heap.old (sequence_at heap.old list) n) result heap.new }
{
    match n {
        None => answer(heap, Value::Null),
        Some(n) => {
            let count = count_of(n).min(Sequence::at(heap, list).len());
            new_part(alloc, heap, list, 0, count)
        }
    }
}

/// All but the first so many elements.
#[tactic(auto, using(crate::proofs::Lists::dropped_rest))]
pub(crate) fn drop(alloc: Global, heap: &mut Heap, list: ObjId, n: Option<i64>) -> Done
    ensures { Did heap.old (spec.drop_reply heap.old (sequence_at heap.old list) n) result heap.new }
{
    match n {
        None => answer(heap, Value::Null),
        Some(n) => {
            let size = Sequence::at(heap, list).len();
            let from = count_of(n).min(size);
            new_part(alloc, heap, list, from, size - from)
        }
    }
}

/// How many elements a number means.
fn count_of(n: i64) -> usize
    ensures { result ≡ spec.count_of n }
{
    natural(n).unwrap_or(0)
}

/// The elements backwards.
pub(crate) fn reverse(alloc: Global, heap: &mut Heap, list: ObjId) -> Done
    ensures { Did heap.old (spec.reverse_reply heap.old (sequence_at heap.old list)) result heap.new }
{
    new_reverse(alloc, heap, list)
}

/// The elements in a list of their own.
pub(crate) fn copy(alloc: Global, heap: &mut Heap, list: ObjId) -> Done
    ensures { Did heap.old (spec.list_copy heap.old (sequence_at heap.old list)) result heap.new }
{
    let size = Sequence::at(heap, list).len();
    new_part(alloc, heap, list, 0, size)
}

/// The element at a place, or those at several.
pub(crate) fn get(alloc: Global, heap: &mut Heap, list: ObjId, place: Value) -> Done
    ensures { Did heap.old (spec.get_reply heap.old (sequence_at heap.old list) place) result heap.new }
{
    match place {
        Value::Int(n) => get_one(alloc, heap, list, n),
        Value::Obj(places) => get_each(alloc, heap, list, places),
        _ => answer(heap, Value::Null),
    }
}

fn get_one(alloc: Global, heap: &Heap, list: ObjId, n: i32) -> Done
    ensures { Did heap.now (spec.get_reply heap.now (sequence_at heap.now list) (Value.Int n)) result heap.now }
{
    let items = Sequence::at(heap, list);
    let given = i64::from(n);
    match place_in(items.len(), given) {
        None => throw_outside(alloc, given, items.len()),
        Some(at) => answer(heap, element_in(&items, at).unwrap_or(Value::Null)),
    }
}
