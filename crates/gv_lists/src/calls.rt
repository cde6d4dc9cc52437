ghost use Rattle.std.specs.Prelude.{◌≡◌, ◌&&◌, true, false};
ghost use Rattle.gv_heap.specs.Heap.{object_at};
ghost use Rattle.gv_heap.specs.Kinds.{IsListObject};
ghost use Rattle.gv_natives.specs.Table.{method_of};
ghost use Rattle.gv_natives.specs.declared.kinds.Kind.TheVariants as kind;
ghost use Rattle.gv_rows.specs.Reply.{Did, unless_null, unless_range};
ghost use Rattle.gv_rows.specs.Takes as takes;
ghost use Rattle.gv_lists.specs.Rows as spec;

use crate::answers::answer;
use crate::joining::{multiply, plus};
use crate::reading::{copy, drop, first, get, is_empty, last, reverse, size, tail, take};
use crate::writing::{add_all, clear, insert, pop, push, put};
use gv_base::{Names, NativeId, ObjId, Value};
use gv_classes::Classes;
use gv_heap::{Heap, Object};
use gv_natives::Row;
use gv_rows::{Done, lacks_one, null_argument, number_in, on_a_range, row_at};
use std::alloc::Global;

/// Calls a built-in method of List that calls no script code, by the number of its row, on a List or a Range. It answers,
/// throws, or does nothing where its price in cells isn't left or memory is wanting; then the heap may hold more.
pub fn call_list(
    alloc: Global,
    _names: &Names,
    _classes: &Classes,
    heap: &mut Heap,
    native: NativeId,
    receiver: Value,
    args: &[Value],
) -> Done
    requires call { takes.IsCall kind.List native heap.old (takes.row_at native) args.now }
    requires receiver { spec.IsReceiver heap.old receiver }
    ensures { Did heap.old (spec.list_reply heap.old (takes.row_at native) (spec.object_of receiver) args.now) result heap.new }
{
    let row = row_at(native);
    match receiver {
        Value::Obj(list) => call_row(alloc, heap, &row, list, args),
        _ => unreachable!(),
    }
}

/// A call of a row on a list.
fn call_row(alloc: Global, heap: &mut Heap, row: &Row, list: ObjId, args: &[Value]) -> Done
    requires { takes.is_sequence (object_at heap.old list) ≡ true }
    ensures { Did heap.old (spec.list_reply heap.old (method_of row.now) list args.now) result heap.new }
{
    let is_null = lacks_one(row, args);
    call_unless_null(alloc, heap, row.name, list, args, is_null)
}

/// A call of the row of a name, where it is known whether null is given for a kind.
fn call_unless_null(
    alloc: Global,
    heap: &mut Heap,
    name: &str,
    list: ObjId,
    args: &[Value],
    is_null: bool,
) -> Done
    requires { takes.is_sequence (object_at heap.old list) ≡ true }
    ensures { Did heap.old (unless_null name.now is_null (unless_range name.now (spec.writes name.now && takes.is_range (object_at heap.old list)) (spec.row_reply heap.old name.now list args.now))) result heap.new }
{
    if is_null {
        return null_argument(alloc, name);
    }
    if writes(name) && is_range(heap, list) {
        return on_a_range(alloc, name);
    }
    run_row(alloc, heap, name, list, args)
}

/// Whether a row changes its list.
fn writes(name: &str) -> bool
    ensures { result ≡ spec.writes name.now }
{
    name == "putAt"
        || name == "add"
        || name == "push"
        || name == "addAll"
        || name == "leftShift"
        || name == "pop"
        || name == "clear"
}

fn is_range(heap: &Heap, list: ObjId) -> bool
    ensures { result ≡ takes.is_range (object_at heap.now list) }
{
    matches!(heap.get(list), Some(Object::Range(_)))
}

/// What the row of a name does, once nothing of what all rows have in common stands against it.
fn run_row(alloc: Global, heap: &mut Heap, name: &str, list: ObjId, args: &[Value]) -> Done
    requires { spec.writes name.now ≡ true → IsListObject (object_at heap.old list) }
    ensures { Did heap.old (spec.row_reply heap.old name.now list args.now) result heap.new }
{
    match args {
        [] => run_alone(alloc, heap, name, list),
        [x] => run_with(alloc, heap, name, list, *x),
        [place, x, ..] => run_at_place(alloc, heap, name, list, *place, *x),
    }
}

/// A row without an argument.
fn run_alone(alloc: Global, heap: &mut Heap, name: &str, list: ObjId) -> Done
    requires { spec.writes name.now ≡ true → IsListObject (object_at heap.old list) }
    ensures { Did heap.old (spec.row_alone heap.old name.now list) result heap.new }
{
    if name == "size" {
        size(heap, list)
    } else if name == "isEmpty" {
        is_empty(heap, list)
    } else if name == "first" {
        first(alloc, heap, list, name)
    } else if name == "head" {
        first(alloc, heap, list, name)
    } else if name == "last" {
        last(alloc, heap, list, name)
    } else if name == "tail" {
        tail(alloc, heap, list, name)
    } else if name == "reverse" {
        reverse(alloc, heap, list)
    } else if name == "toList" {
        copy(alloc, heap, list)
    } else if name == "pop" {
        pop(alloc, heap, list, name)
    } else if name == "clear" {
        clear(heap, list)
    } else {
        answer(heap, Value::Null)
    }
}

/// A row with one argument.
fn run_with(alloc: Global, heap: &mut Heap, name: &str, list: ObjId, x: Value) -> Done
    requires { spec.writes name.now ≡ true → IsListObject (object_at heap.old list) }
    ensures { Did heap.old (spec.row_with heap.old name.now list x) result heap.new }
{
    if name == "getAt" {
        get(alloc, heap, list, x)
    } else if name == "take" {
        take(alloc, heap, list, number_in(x))
    } else if name == "drop" {
        drop(alloc, heap, list, number_in(x))
    } else if name == "plus" {
        plus(alloc, heap, list, x)
    } else if name == "multiply" {
        multiply(alloc, heap, list, number_in(x))
    } else if name == "add" {
        push(heap, list, x, Value::Bool(true))
    } else if name == "push" {
        push(heap, list, x, Value::Bool(true))
    } else if name == "leftShift" {
        push(heap, list, x, Value::Obj(list))
    } else if name == "addAll" {
        add_all(alloc, heap, list, x)
    } else {
        answer(heap, Value::Null)
    }
}

/// A row with two arguments.
fn run_at_place(
    alloc: Global,
    heap: &mut Heap,
    name: &str,
    list: ObjId,
    place: Value,
    x: Value,
) -> Done
    requires { spec.writes name.now ≡ true → IsListObject (object_at heap.old list) }
    ensures { Did heap.old (spec.row_at_place heap.old name.now list place x) result heap.new }
{
    if name == "putAt" {
        put(alloc, heap, list, place, x)
    } else if name == "add" {
        insert(alloc, heap, list, place, x)
    } else {
        answer(heap, Value::Null)
    }
}
