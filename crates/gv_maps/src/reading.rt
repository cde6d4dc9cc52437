ghost use Rattle.std.specs.Prelude.{◌≡◌, IfOk};
ghost use Rattle.gv_heap.specs.Heap.{object_at};
ghost use Rattle.gv_heap.specs.Kinds.{IsMapObject};
ghost use Rattle.gv_maps.specs.Reading as spec;
ghost use Rattle.gv_rows.specs.Reply.{Did};

use crate::answers::answer;
use gv_base::{ObjId, OutOfMemory, Value};
use gv_heap::{Entries, Heap, MapKey};
use gv_rows::{Done, integer_of, new_list};
use std::alloc::Global;

/// size()
pub(crate) fn size(heap: &Heap, id: ObjId) -> Done
    requires { IsMapObject (object_at heap.now id) }
    ensures { Did heap.now (spec.size_reply heap.now id) result heap.now }
{
    answer(heap, integer_of(heap.map(id).len()))
}

/// isEmpty()
pub(crate) fn is_empty(heap: &Heap, id: ObjId) -> Done
    requires { IsMapObject (object_at heap.now id) }
    ensures { Did heap.now (spec.empty_reply heap.now id) result heap.now }
{
    answer(heap, Value::Bool(heap.map(id).len() == 0))
}

/// get(x) and getAt(x)
pub(crate) fn get(heap: &Heap, id: ObjId, key: &MapKey) -> Done
    requires { IsMapObject (object_at heap.now id) }
    ensures { Did heap.now (spec.get_reply heap.now id key.now) result heap.now }
{
    answer(heap, value_or_null(heap.map(id), key))
}

/// containsKey(x)
pub(crate) fn contains(heap: &Heap, id: ObjId, key: &MapKey) -> Done
    requires { IsMapObject (object_at heap.now id) }
    ensures { Did heap.now (spec.contains_reply heap.now id key.now) result heap.now }
{
    answer(heap, Value::Bool(heap.map(id).contains(key)))
}

/// keySet()
pub(crate) fn keys(alloc: Global, heap: &mut Heap, id: ObjId) -> Done
    requires { IsMapObject (object_at heap.old id) }
    ensures { Did heap.old (spec.keys_reply heap.old id) result heap.new }
{
    match shown_keys(alloc, heap.map(id)) {
        Ok(keys) => new_list(heap, keys),
        Err(_) => Done::OutOfMemory,
    }
}

/// values()
pub(crate) fn values(alloc: Global, heap: &mut Heap, id: ObjId) -> Done
    requires { IsMapObject (object_at heap.old id) }
    ensures { Did heap.old (spec.values_reply heap.old id) result heap.new }
{
    match values_of(alloc, heap.map(id)) {
        Ok(values) => new_list(heap, values),
        Err(_) => Done::OutOfMemory,
    }
}

/// The value at a key, or null.
pub(crate) fn value_or_null(entries: &Entries, key: &MapKey) -> Value
    ensures { result ≡ spec.value_or_null entries.now key.now }
{
    entries.get(key).unwrap_or(Value::Null)
}

/// The keys as they are shown, in order.
fn shown_keys(alloc: Global, entries: &Entries) -> Result<Vec<Value>, OutOfMemory>
    ensures { IfOk result (λ keys. keys.items ≡ spec.shown_keys entries.now) }
{
    let mut keys = Vec::with_capacity(alloc, entries.len())?;
    for place in 0..entries.len() {
        let (_, slot) = entries.at(place);
        keys.push(slot.shown)?;
    }
    Ok(keys)
}

/// The values in order.
fn values_of(alloc: Global, entries: &Entries) -> Result<Vec<Value>, OutOfMemory>
    ensures { IfOk result (λ values. values.items ≡ spec.values_of entries.now) }
{
    let mut values = Vec::with_capacity(alloc, entries.len())?;
    for place in 0..entries.len() {
        let (_, slot) = entries.at(place);
        values.push(slot.value)?;
    }
    Ok(values)
}
