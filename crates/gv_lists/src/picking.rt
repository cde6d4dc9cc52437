ghost use Rattle.std.specs.Prelude.{◌≡◌, ◌<◌, ◌^◌, length, map, option_copied, slice_get, IfOk, MatchResult, Some};
ghost use Rattle.gv_heap.specs.Heap.{HeapState, object_at};
ghost use Rattle.gv_rows.specs.Reply.{Did};
ghost use Rattle.gv_rows.specs.Reply as reply;
ghost use Rattle.gv_rows.specs.Values.{number_in, sequence_at, walked};
ghost use Rattle.gv_lists.specs.Reading as spec;

use crate::answers::{answer, element_in, place_in};
use crate::faults::Fault;
use crate::parts::is_too_dear;
use crate::throwing::{throw_bad_places, throw_outside};
use gv_base::{ObjId, OutOfMemory, Value};
use gv_heap::{Heap, Object, Range};
use gv_rows::{Done, Sequence, Walk, natural, new_list, number_in};
use std::alloc::Global;

/// The elements at several places: at the items of a List, or where a Range walks.
pub(crate) fn get_each(alloc: Global, heap: &mut Heap, list: ObjId, places: ObjId) -> Done
    ensures { Did heap.old (spec.get_by heap.old (sequence_at heap.old list) (object_at heap.old places)) result heap.new }
{
    match read(alloc, heap, list, heap.get(places)) {
        Ok(items) => new_list(heap, items),
        Err(done) => done,
    }
}

/// The elements for a new List, or how the call ends otherwise.
fn read(
    alloc: Global,
    heap: &Heap,
    list: ObjId,
    places: Option<&Object>,
) -> Result<Vec<Value>, Done>
    ensures { MatchResult result
        (λ items. spec.get_by heap.now (sequence_at heap.now list) (option_copied places.entry) ≡ reply.new_list heap.now items.items)
        (λ done. Did heap.now (spec.get_by heap.now (sequence_at heap.now list) (option_copied places.entry)) done heap.now) }
{
    match places {
        Some(Object::List(places)) => read_items(alloc, heap, list, places.as_slice()),
        Some(Object::Range(range)) => read_range(alloc, heap, list, range),
        _ => Err(answer(heap, Value::Null)),
    }
}

/// The elements at the items of a List.
fn read_items(alloc: Global, heap: &Heap, list: ObjId, places: &[Value]) -> Result<Vec<Value>, Done>
    ensures { MatchResult result
        (λ items. spec.items_reply heap.now (sequence_at heap.now list) places.now ≡ reply.new_list heap.now items.items)
        (λ done. Did heap.now (spec.items_reply heap.now (sequence_at heap.now list) places.now) done heap.now) }
{
    let items = Sequence::at(heap, list);
    let size = items.len();
    if let Some(fault) = first_fault(size, places) {
        return Err(throw_fault(alloc, size, fault));
    }
    if is_too_dear(heap, places.len()) {
        return Err(Done::CellsSpent);
    }
    match elements_at(alloc, &items, places) {
        Ok(items) => Ok(items),
        Err(_) => Err(Done::OutOfMemory),
    }
}

/// What is thrown for a fault among so many elements.
fn throw_fault(alloc: Global, size: usize, fault: Fault) -> Done
    ensures { (heap : HeapState) → Did heap (spec.fault_reply size fault) result heap }
{
    match fault {
        Fault::NoNumber => throw_bad_places(alloc),
        Fault::Before(given) => throw_outside(alloc, given, size),
    }
}

/// The first item that can't be read.
fn first_fault(size: usize, places: &[Value]) -> Option<Fault>
    ensures { result ≡ spec.first_fault size places.now }
{
    for place in places {
        if let Some(fault) = item_fault(size, *place) {
            return Some(fault);
        }
    }
    None
}

fn item_fault(size: usize, item: Value) -> Option<Fault>
    ensures { result ≡ spec.item_fault size (number_in item) }
{
    match number_in(item) {
        None => Some(Fault::NoNumber),
        Some(n) => before(n, place_in(size, n)),
    }
}

/// A place before the start.
fn before(given: i64, place: Option<usize>) -> Option<Fault>
    ensures { result ≡ spec.before given place }
{
    match place {
        None => Some(Fault::Before(given)),
        Some(_) => None,
    }
}

/// The elements at items that can be read.
fn elements_at(alloc: Global, items: &Sequence, places: &[Value]) -> Result<Vec<Value>, OutOfMemory>
    ensures { IfOk result (λ all. all.items ≡ map (spec.item_element items.now) places.now) }
{
    let mut all = Vec::with_capacity(alloc, places.len())?;
    for place in places {
        all.push(item_element(items, *place))?;
    }
    Ok(all)
}

fn item_element(items: &Sequence, item: Value) -> Value
    ensures { result ≡ spec.item_element items.now item }
{
    let n = number_in(item).unwrap_or(0);
    or_null(items, place_in(items.len(), n))
}

/// The element at a place; null where it is past the end.
pub(crate) fn or_null(items: &Sequence, place: Option<usize>) -> Value
    ensures { result ≡ spec.or_null items.now place }
{
    match place {
        None => Value::Null,
        Some(at) => element_in(items, at).unwrap_or(Value::Null),
    }
}

/// The elements where a Range walks.
fn read_range(alloc: Global, heap: &Heap, list: ObjId, range: &Range) -> Result<Vec<Value>, Done>
    ensures { MatchResult result
        (λ items. spec.walk_reply heap.now (sequence_at heap.now list) (walked (length (sequence_at heap.now list)) range.now.first range.now.last range.now.open_end) ≡ reply.new_list heap.now items.items)
        (λ done. Did heap.now (spec.walk_reply heap.now (sequence_at heap.now list) (walked (length (sequence_at heap.now list)) range.now.first range.now.last range.now.open_end)) done heap.now) }
{
    let (first, last) = range.ends();
    let size = Sequence::at(heap, list).len();
    // Each is shorter than 2^63, which Sequence doesn't say.
    if i64::try_from(size).is_err() {
        return Err(Done::OutOfMemory);
    }
    let walk = Walk::new(size, first, last, range.open_end());
    read_walk(alloc, heap, list, &walk)
}

/// The elements at the places of a walk, if none is before the start.
fn read_walk(alloc: Global, heap: &Heap, list: ObjId, walk: &Walk) -> Result<Vec<Value>, Done>
    requires { spec.IsRun walk.now }
    ensures { MatchResult result
        (λ items. spec.walk_reply heap.now (sequence_at heap.now list) walk.now ≡ reply.new_list heap.now items.items)
        (λ done. Did heap.now (spec.walk_reply heap.now (sequence_at heap.now list) walk.now) done heap.now) }
{
    let items = Sequence::at(heap, list);
    if let Some(fault) = walk_fault(walk) {
        return Err(throw_fault(alloc, items.len(), fault));
    }
    if is_too_dear(heap, walk.len() as usize) {
        return Err(Done::CellsSpent);
    }
    match elements_along(alloc, &items, walk) {
        Ok(items) => Ok(items),
        Err(_) => Err(Done::OutOfMemory),
    }
}

/// The first place of a walk that is before the start.
#[tactic(auto, using(crate::proofs::Runs::faults))]
fn walk_fault(walk: &Walk) -> Option<Fault>
    requires { spec.IsRun walk.now }
    ensures { result ≡ spec.walk_fault walk.now }
{
    let count = walk.len();
    if count == 0 {
        return None;
    }
    let first = walk.get(0);
    let last = walk.get(count - 1);
    fault_between(first, last)
}

/// The first fault of a run from its first place to its last: behind its first place it comes to -1 first.
fn fault_between(first: i64, last: i64) -> Option<Fault>
    ensures { result ≡ spec.fault_between first last }
{
    match before(first, natural(first)) {
        Some(fault) => Some(fault),
        None => before(-1, natural(last)),
    }
}

/// The elements at the places of a walk.
#[tactic(auto, using(crate::proofs::Lists::take_at, gv_rows::proofs::Numbers::length_mapped))]
fn elements_along(alloc: Global, items: &Sequence, walk: &Walk) -> Result<Vec<Value>, OutOfMemory>
    ensures { IfOk result (λ all. all.items ≡ map (spec.element items.now) walk.now) }
{
    let mut all = Vec::with_capacity(alloc, walk.len() as usize)?;
    for at in 0..walk.len() {
        all.push(element_along(items, walk, at))?;
    }
    Ok(all)
}

/// The element at one of the places of a walk.
#[tactic(auto, using(gv_rows::proofs::Numbers::get_mapped))]
fn element_along(items: &Sequence, walk: &Walk, at: u64) -> Value
    requires { at < length walk.now }
    ensures { slice_get (map (spec.element items.now) walk.now) at ≡ Some result }
{
    let place = walk.get(at);
    element(items, place)
}

fn element(items: &Sequence, n: i64) -> Value
    ensures { result ≡ spec.element items.now n }
{
    or_null(items, natural(n))
}
