ghost use Rattle.gv_heap.specs.Heap.{object_at};
ghost use Rattle.gv_heap.specs.Kinds.{IsMapObject};
ghost use Rattle.gv_maps.specs.Keys.{with_key};
ghost use Rattle.gv_maps.specs.Rows as spec;
ghost use Rattle.gv_natives.specs.declared.kinds.Kind.{Kind};
ghost use Rattle.gv_rows.specs.Reply.{Did, unless_null};
ghost use Rattle.gv_rows.specs.Takes.{IsCall, row_at};

use crate::answers::{answer, object_of};
use crate::joining::{left_shift, plus, put_all};
use crate::keys::no_key;
use crate::reading::{contains, get, is_empty, keys, size, values};
use crate::writing::{clear, get_or_put, put, put_at, remove};
use gv_base::{Names, NativeId, ObjId, Value};
use gv_classes::Classes;
use gv_heap::{Heap, MapKey};
use gv_rows::{Done, key_of, lacks_one, null_argument, row_at};
use std::alloc::Global;

/// What the row of Map of this number answers to these arguments, or what it throws. It answers `CellsSpent` where its price
/// exceeds the cells left; the heap is then as it was.
pub fn call_map(
    alloc: Global,
    names: &Names,
    classes: &Classes,
    heap: &mut Heap,
    native: NativeId,
    receiver: Value,
    args: &[Value],
) -> Done
    requires call { IsCall Kind.Map native heap.old (row_at native) args.now }
    requires receiver { spec.IsReceiver heap.old receiver }
    ensures { Did heap.old (spec.map_reply names.now classes.now heap.old (row_at native) (spec.object_of receiver) args.now) result heap.new }
{
    let row = row_at(native);
    let id = object_of(heap, receiver);
    let is_null = lacks_one(&row, args);
    call_unless_null(alloc, names, classes, heap, is_null, row.name, id, args)
}

/// The row of a name, unless null is given where a map is written.
fn call_unless_null(
    alloc: Global,
    names: &Names,
    classes: &Classes,
    heap: &mut Heap,
    is_null: bool,
    name: &str,
    id: ObjId,
    args: &[Value],
) -> Done
    requires { IsMapObject (object_at heap.old id) }
    ensures { Did heap.old (unless_null name.now is_null (spec.row_reply names.now classes.now heap.old name.now id args.now)) result heap.new }
{
    if is_null {
        null_argument(alloc, name)
    } else {
        call_row(alloc, names, classes, heap, name, id, args)
    }
}

/// The row of a name, for so many arguments.
fn call_row(
    alloc: Global,
    names: &Names,
    classes: &Classes,
    heap: &mut Heap,
    name: &str,
    id: ObjId,
    args: &[Value],
) -> Done
    requires { IsMapObject (object_at heap.old id) }
    ensures { Did heap.old (spec.row_reply names.now classes.now heap.old name.now id args.now) result heap.new }
{
    match args {
        [] => call_alone(alloc, heap, name, id),
        [x] => call_with(alloc, names, classes, heap, name, id, *x),
        [x, y, ..] => call_with_value(alloc, names, classes, heap, name, id, *x, *y),
    }
}

/// The row of a name without an argument.
fn call_alone(alloc: Global, heap: &mut Heap, name: &str, id: ObjId) -> Done
    requires { IsMapObject (object_at heap.old id) }
    ensures { Did heap.old (spec.row_alone heap.old name.now id) result heap.new }
{
    if name == "size" {
        size(heap, id)
    } else if name == "isEmpty" {
        is_empty(heap, id)
    } else if name == "clear" {
        clear(heap, id)
    } else if name == "keySet" {
        keys(alloc, heap, id)
    } else if name == "values" {
        values(alloc, heap, id)
    } else {
        answer(heap, Value::Null)
    }
}

/// The row of a name with one argument: a map, or a key.
fn call_with(
    alloc: Global,
    names: &Names,
    classes: &Classes,
    heap: &mut Heap,
    name: &str,
    id: ObjId,
    x: Value,
) -> Done
    requires { IsMapObject (object_at heap.old id) }
    ensures { Did heap.old (spec.row_with names.now classes.now heap.old name.now id x) result heap.new }
{
    if name == "putAll" {
        put_all(alloc, heap, id, x)
    } else if name == "plus" {
        plus(alloc, heap, id, x)
    } else if name == "leftShift" {
        left_shift(alloc, heap, id, x)
    } else {
        call_with_key(alloc, names, classes, heap, name, id, x)
    }
}

/// The row of a name with a key.
fn call_with_key(
    alloc: Global,
    names: &Names,
    classes: &Classes,
    heap: &mut Heap,
    name: &str,
    id: ObjId,
    x: Value,
) -> Done
    requires { IsMapObject (object_at heap.old id) }
    ensures { Did heap.old (with_key names.now classes.now heap.old x (λ key. spec.row_with_key heap.old name.now id key)) result heap.new }
{
    match key_of(alloc, names, classes, heap, x) {
        Ok(Some(key)) => of_key(heap, name, id, &key),
        Ok(None) => no_key(alloc, names, classes, heap, x),
        Err(_) => Done::OutOfMemory,
    }
}

/// The row of a name with a key and a value.
fn call_with_value(
    alloc: Global,
    names: &Names,
    classes: &Classes,
    heap: &mut Heap,
    name: &str,
    id: ObjId,
    x: Value,
    y: Value,
) -> Done
    requires { IsMapObject (object_at heap.old id) }
    ensures { Did heap.old (with_key names.now classes.now heap.old x (λ key. spec.row_with_value heap.old name.now id key x y)) result heap.new }
{
    match key_of(alloc, names, classes, heap, x) {
        Ok(Some(key)) => of_key_and_value(heap, name, id, key, x, y),
        Ok(None) => no_key(alloc, names, classes, heap, x),
        Err(_) => Done::OutOfMemory,
    }
}

fn of_key(heap: &mut Heap, name: &str, id: ObjId, key: &MapKey) -> Done
    requires { IsMapObject (object_at heap.old id) }
    ensures { Did heap.old (spec.row_with_key heap.old name.now id key.now) result heap.new }
{
    if name == "get" {
        get(heap, id, key)
    } else if name == "getAt" {
        get(heap, id, key)
    } else if name == "containsKey" {
        contains(heap, id, key)
    } else if name == "remove" {
        remove(heap, id, key)
    } else {
        answer(heap, Value::Null)
    }
}

fn of_key_and_value(heap: &mut Heap, name: &str, id: ObjId, key: MapKey, x: Value, y: Value) -> Done
    requires { IsMapObject (object_at heap.old id) }
    ensures { Did heap.old (spec.row_with_value heap.old name.now id key x y) result heap.new }
{
    if name == "get" {
        get_or_put(heap, id, key, x, y)
    } else if name == "put" {
        put(heap, id, key, x, y)
    } else if name == "putAt" {
        put_at(heap, id, key, x, y)
    } else {
        answer(heap, Value::Null)
    }
}
