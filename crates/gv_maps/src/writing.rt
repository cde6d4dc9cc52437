ghost use Rattle.std.specs.Prelude.{◌≡◌};
ghost use Rattle.gv_heap.specs.Heap.{object_at};
ghost use Rattle.gv_heap.specs.Kinds.{IsMapObject};
ghost use Rattle.gv_maps.specs.Writing as spec;
ghost use Rattle.gv_rows.specs.Reply.{Did};

use crate::answers::answer;
use crate::reading::value_or_null;
use gv_base::{ObjId, Value};
use gv_heap::{Heap, HeapError, MapKey};
use gv_rows::Done;

/// put(x, y)
pub(crate) fn put(heap: &mut Heap, id: ObjId, key: MapKey, x: Value, y: Value) -> Done
    requires { IsMapObject (object_at heap.old id) }
    ensures { Did heap.old (spec.put_reply heap.old id key x y) result heap.new }
{
    let before = value_or_null(heap.map(id), &key);
    put_and_answer(heap, id, key, x, y, before)
}

/// putAt(x, y)
pub(crate) fn put_at(heap: &mut Heap, id: ObjId, key: MapKey, x: Value, y: Value) -> Done
    requires { IsMapObject (object_at heap.old id) }
    ensures { Did heap.old (spec.put_at_reply heap.old id key x y) result heap.new }
{
    put_and_answer(heap, id, key, x, y, y)
}

/// get(x, y)
pub(crate) fn get_or_put(heap: &mut Heap, id: ObjId, key: MapKey, x: Value, y: Value) -> Done
    requires { IsMapObject (object_at heap.old id) }
    ensures { Did heap.old (spec.get_or_put_reply heap.old id key x y) result heap.new }
{
    match heap.map(id).get(&key) {
        Some(value) => answer(heap, value),
        None => put_and_answer(heap, id, key, x, y, y),
    }
}

/// remove(x)
pub(crate) fn remove(heap: &mut Heap, id: ObjId, key: &MapKey) -> Done
    requires { IsMapObject (object_at heap.old id) }
    ensures { Did heap.old (spec.remove_reply heap.old id key.now) result heap.new }
{
    let before = heap.remove_key(id, key).unwrap_or(Value::Null);
    Done::Value(before)
}

/// clear()
pub(crate) fn clear(heap: &mut Heap, id: ObjId) -> Done
    requires { IsMapObject (object_at heap.old id) }
    ensures { Did heap.old (spec.clear_reply heap.old id) result heap.new }
{
    heap.clear(id);
    Done::Value(Value::Null)
}

/// Puts the value y at a key that x shows, for a cell where the key is new, and answers so.
fn put_and_answer(
    heap: &mut Heap,
    id: ObjId,
    key: MapKey,
    x: Value,
    y: Value,
    answer: Value,
) -> Done
    requires { IsMapObject (object_at heap.old id) }
    ensures { Did heap.old (spec.putting heap.old id key x y answer) result heap.new }
{
    match heap.put(id, key, x, y) {
        Ok(()) => Done::Value(answer),
        Err(HeapError::CellsSpent) => Done::CellsSpent,
        Err(HeapError::OutOfMemory) => Done::OutOfMemory,
    }
}
