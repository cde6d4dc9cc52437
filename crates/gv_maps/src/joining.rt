ghost use Rattle.std.specs.Prelude.{◌≡◌, ◌+◌, ◌++◌, ◌≤◌, [], length, OnOk};
ghost use Rattle.gv_heap.specs.Entries.{with_entry};
ghost use Rattle.gv_heap.specs.Heap.{object_at, map_at, pay, with_map};
ghost use Rattle.gv_heap.specs.Kinds.{IsMapObject};
ghost use Rattle.gv_heap.specs.Prices.{entry_price};
ghost use Rattle.gv_maps.specs.Joining as spec;
ghost use Rattle.gv_rows.specs.Reply.{Did};

use crate::copies::push_entries;
use crate::prices::{count_new, price_of_map};
use gv_base::{ObjId, OutOfMemory, Value};
use gv_heap::{Heap, HeapError, MapKey, Object, Slot};
use gv_rows::Done;
use std::alloc::Global;

/// putAll(m)
pub(crate) fn put_all(alloc: Global, heap: &mut Heap, id: ObjId, m: Value) -> Done
    requires { IsMapObject (object_at heap.old id) }
    ensures { Did heap.old (spec.put_all_reply heap.old id m) result heap.new }
{
    join_and_answer(alloc, heap, id, m, Value::Null)
}

/// leftShift(m)
pub(crate) fn left_shift(alloc: Global, heap: &mut Heap, id: ObjId, m: Value) -> Done
    requires { IsMapObject (object_at heap.old id) }
    ensures { Did heap.old (spec.left_shift_reply heap.old id m) result heap.new }
{
    join_and_answer(alloc, heap, id, m, Value::Obj(id))
}

/// plus(m)
pub(crate) fn plus(alloc: Global, heap: &mut Heap, id: ObjId, m: Value) -> Done
    requires { IsMapObject (object_at heap.old id) }
    ensures { Did heap.old (spec.plus_reply heap.old id m) result heap.new }
{
    match sum(alloc, heap, id, m) {
        Ok(map) => Done::Value(Value::Obj(map)),
        Err(HeapError::CellsSpent) => Done::CellsSpent,
        Err(HeapError::OutOfMemory) => Done::OutOfMemory,
    }
}

/// Puts the entries of a map into another, and answers so.
fn join_and_answer(alloc: Global, heap: &mut Heap, id: ObjId, m: Value, answer: Value) -> Done
    requires { IsMapObject (object_at heap.old id) }
    ensures { Did heap.old (spec.joining heap.old id (spec.entries_in heap.old m) answer) result heap.new }
{
    match join(alloc, heap, id, m) {
        Ok(()) => Done::Value(answer),
        Err(HeapError::CellsSpent) => Done::CellsSpent,
        Err(HeapError::OutOfMemory) => Done::OutOfMemory,
    }
}

/// Puts the entries of a map into another, once their price is known to be left.
fn join(alloc: Global, heap: &mut Heap, id: ObjId, m: Value) -> Result<(), HeapError>
    requires { IsMapObject (object_at heap.old id) }
    ensures { spec.Joins heap.old id (spec.entries_in heap.old m) result heap.new }
{
    let mut items = Vec::new(alloc);
    push_entries_in(alloc, heap, m, &mut items)?;
    let price = count_new(alloc, Some(heap.map(id)), items.as_slice())?;
    if heap.cells_left() < price {
        return Err(HeapError::CellsSpent);
    }
    put_items(heap, id, items)?;
    Ok(())
}

/// Makes a map of the entries of one and over them those of another.
fn sum(alloc: Global, heap: &mut Heap, id: ObjId, m: Value) -> Result<ObjId, HeapError>
    requires { IsMapObject (object_at heap.old id) }
    ensures { spec.MakesMap heap.old (spec.summed (map_at heap.old id) (spec.entries_in heap.old m)) result heap.new }
{
    let mut items = Vec::new(alloc);
    push_entries(alloc, heap.map(id), &mut items)?;
    push_entries_in(alloc, heap, m, &mut items)?;
    make_of(alloc, heap, items)
}

/// Makes a map and puts these items into it, once their price is known to be left.
fn make_of(alloc: Global, heap: &mut Heap, items: Vec<(MapKey, Slot)>) -> Result<ObjId, HeapError>
    ensures { spec.MakesMap heap.old (spec.joined [] items.items) result heap.new }
{
    let price = price_of_map(alloc, items.as_slice())?;
    if heap.cells_left() < price {
        return Err(HeapError::CellsSpent);
    }
    make_paid(heap, items)
}

/// The same, where its price is left.
fn make_paid(heap: &mut Heap, items: Vec<(MapKey, Slot)>) -> Result<ObjId, HeapError>
    requires { 1 + length (spec.joined [] items.items) ≤ heap.old.cells }
    ensures { spec.MakesMap heap.old (spec.joined [] items.items) result heap.new }
{
    let map = heap.make_map()?;
    put_items(heap, map, items)?;
    Ok(map)
}

/// Puts copies of the entries that a value has behind others.
fn push_entries_in(
    alloc: Global,
    heap: &Heap,
    m: Value,
    items: &mut Vec<(MapKey, Slot)>,
) -> Result<(), OutOfMemory>
    ensures { OnOk result (items.new.items ≡ items.old.items ++ spec.entries_in heap.now m) }
{
    let Value::Obj(id) = m else {
        return Ok(());
    };
    match heap.get(id) {
        Some(Object::Map(entries)) => push_entries(alloc, entries, items),
        _ => Ok(()),
    }
}

/// Puts items into a map, in order. Their price is left.
fn put_items(heap: &mut Heap, id: ObjId, items: Vec<(MapKey, Slot)>) -> Result<(), OutOfMemory>
    requires kind { IsMapObject (object_at heap.old id) }
    requires fits { spec.join_price (map_at heap.old id) items.items ≤ heap.old.cells }
    ensures { OnOk result (heap.new ≡ spec.joined_heap heap.old id items.items) }
{
    for item in items {
        put_item(heap, id, item)?;
    }
    Ok(())
}

/// Puts an item into a map. Its price is left.
fn put_item(heap: &mut Heap, id: ObjId, item: (MapKey, Slot)) -> Result<(), OutOfMemory>
    requires kind { IsMapObject (object_at heap.old id) }
    requires fits { entry_price (map_at heap.old id) item.0 ≤ heap.old.cells }
    ensures { OnOk result (heap.new ≡ pay (with_map heap.old id (with_entry (map_at heap.old id) item.0 item.1.shown item.1.value)) (entry_price (map_at heap.old id) item.0)) }
{
    let (key, slot) = item;
    match heap.put(id, key, slot.shown, slot.value) {
        Ok(()) => Ok(()),
        Err(HeapError::OutOfMemory) => Err(OutOfMemory),
        Err(HeapError::CellsSpent) => unreachable!(),
    }
}
