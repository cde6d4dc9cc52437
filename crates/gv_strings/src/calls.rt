ghost use Rattle.std.specs.Prelude.{◌≡◌, true};
ghost use Rattle.gv_natives.specs.Table.{method_of};
ghost use Rattle.gv_natives.specs.declared.kinds.Kind.TheVariants as kind;
ghost use Rattle.gv_rows.specs.Reply.{Did};
ghost use Rattle.gv_rows.specs.Takes as takes;
ghost use Rattle.gv_strings.specs.Rows as spec;
ghost use Rattle.gv_strings.specs.Texts as texts;

use crate::answers::answer;
use crate::lists::{to_list, tokenize, tokenize_at};
use crate::making::{multiply, replace, reverse, trim};
use crate::padding::{pad_left, pad_left_with, pad_right, pad_right_with};
use crate::parts::{between, get, rest};
use crate::reading::{
    compare, contains, count, ends, index, integer, is_empty, last_index, long, size, starts,
};
use crate::texts::{text_at, text_in};
use gv_base::{Names, NativeId, ObjId, Value};
use gv_classes::Classes;
use gv_heap::Heap;
use gv_natives::Row;
use gv_rows::{Done, lacks_one, null_argument, number_in, row_at};
use std::alloc::Global;

/// Calls a built-in method of String that calls no script code, by the number of its row, on a String. It answers, throws,
/// or does nothing where its price in cells isn't left or memory is wanting; then the heap may hold more.
pub fn call_string(
    alloc: Global,
    _names: &Names,
    _classes: &Classes,
    heap: &mut Heap,
    native: NativeId,
    receiver: Value,
    args: &[Value],
) -> Done
    requires call { takes.IsCall kind.String native heap.old (takes.row_at native) args.now }
    requires receiver { spec.IsReceiver heap.old receiver }
    ensures { Did heap.old (spec.string_reply heap.old (takes.row_at native) (spec.object_of receiver) args.now) result heap.new }
{
    let row = row_at(native);
    match receiver {
        Value::Obj(string) => call_row(alloc, heap, &row, string, args),
        _ => unreachable!(),
    }
}

/// A call of a row on a String.
fn call_row(alloc: Global, heap: &mut Heap, row: &Row, string: ObjId, args: &[Value]) -> Done
    ensures { Did heap.old (spec.string_reply heap.old (method_of row.now) string args.now) result heap.new }
{
    if lacks_one(row, args) {
        return null_argument(alloc, row.name);
    }
    run_row(alloc, heap, row.name, string, args)
}

/// What the row of a name does, once no null stands against it.
fn run_row(alloc: Global, heap: &mut Heap, name: &str, string: ObjId, args: &[Value]) -> Done
    ensures { Did heap.old (spec.row_reply heap.old name.now (texts.text_at heap.old string) args.now) result heap.new }
{
    match args {
        [] => run_alone(alloc, heap, name, string),
        [x] => run_with(alloc, heap, name, string, *x),
        [x, y, ..] => run_with_two(alloc, heap, name, string, *x, *y),
    }
}

/// A row without an argument.
fn run_alone(alloc: Global, heap: &mut Heap, name: &str, string: ObjId) -> Done
    ensures { Did heap.old (spec.row_alone heap.old name.now (texts.text_at heap.old string)) result heap.new }
{
    if name == "length" {
        size(heap, text_at(heap, string))
    } else if name == "size" {
        size(heap, text_at(heap, string))
    } else if name == "isEmpty" {
        is_empty(heap, text_at(heap, string))
    } else if name == "tokenize" {
        tokenize(alloc, heap, string)
    } else if name == "trim" {
        trim(alloc, heap, string)
    } else if name == "reverse" {
        reverse(alloc, heap, string)
    } else if name == "toList" {
        to_list(alloc, heap, string)
    } else if name == "toInteger" {
        integer(alloc, heap, text_at(heap, string))
    } else if name == "toLong" {
        long(alloc, heap, text_at(heap, string))
    } else {
        answer(heap, Value::Null)
    }
}

/// A row with one argument.
fn run_with(alloc: Global, heap: &mut Heap, name: &str, string: ObjId, x: Value) -> Done
    ensures { Did heap.old (spec.row_with heap.old name.now (texts.text_at heap.old string) x) result heap.new }
{
    if name == "multiply" {
        multiply(alloc, heap, string, number_in(x))
    } else if name == "getAt" {
        get(alloc, heap, string, x)
    } else if name == "contains" {
        contains(heap, text_at(heap, string), text_in(heap, x))
    } else if name == "startsWith" {
        starts(heap, text_at(heap, string), text_in(heap, x))
    } else if name == "endsWith" {
        ends(heap, text_at(heap, string), text_in(heap, x))
    } else if name == "indexOf" {
        index(heap, text_at(heap, string), text_in(heap, x))
    } else if name == "lastIndexOf" {
        last_index(heap, text_at(heap, string), text_in(heap, x))
    } else if name == "substring" {
        rest(alloc, heap, string, number_in(x))
    } else if name == "count" {
        count(heap, text_at(heap, string), text_in(heap, x))
    } else if name == "tokenize" {
        tokenize_at(alloc, heap, string, x)
    } else if name == "padLeft" {
        pad_left(alloc, heap, string, number_in(x))
    } else if name == "padRight" {
        pad_right(alloc, heap, string, number_in(x))
    } else if name == "compareTo" {
        compare(heap, text_at(heap, string), text_in(heap, x))
    } else {
        answer(heap, Value::Null)
    }
}

/// A row with two arguments.
fn run_with_two(
    alloc: Global,
    heap: &mut Heap,
    name: &str,
    string: ObjId,
    x: Value,
    y: Value,
) -> Done
    ensures { Did heap.old (spec.row_with_two heap.old name.now (texts.text_at heap.old string) x y) result heap.new }
{
    if name == "substring" {
        between(alloc, heap, string, number_in(x), number_in(y))
    } else if name == "replace" {
        replace(alloc, heap, string, x, y)
    } else if name == "padLeft" {
        pad_left_with(alloc, heap, string, number_in(x), y)
    } else if name == "padRight" {
        pad_right_with(alloc, heap, string, number_in(x), y)
    } else {
        answer(heap, Value::Null)
    }
}
