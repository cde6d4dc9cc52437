//! The arguments of `use`.

ghost use Rattle.std.specs.Prelude.{◌≡◌, option_copied};
ghost use Rattle.gv_calling.specs.Calling as spec;
ghost use Rattle.gv_frames.specs.Frames.{Unless};

use crate::calling::{is_closure, one_call};
use gv_base::{ExceptionKind, Value};
use gv_frames::{Called, Turn};
use gv_heap::{Heap, Object};
use gv_rows::{Done, throw_joined};
use sqlite_items::Items;
use std::alloc::Global;

/// Asks for the call of the last argument, a closure, while the classes before it are open; or throws where the arguments are others.
pub fn start_use(alloc: Global, heap: &Heap, receiver: Value, args: Items<Value>) -> Turn
    ensures { spec.Uses heap.now receiver args result }
{
    if takes(heap, args.as_slice()) {
        return one_call(receiver, Called::Use, args);
    }
    bad_arguments(alloc)
}

fn bad_arguments(alloc: Global) -> Turn
    ensures { Unless result (result ≡ spec.bad_arguments) }
{
    let kind = ExceptionKind::IllegalArgumentException;
    match throw_joined(alloc, kind, "Bad arguments: ", "use") {
        Done::Thrown(kind, message) => Turn::Thrown(kind, message),
        _ => Turn::OutOfMemory,
    }
}

/// Whether these are classes, or one list of classes, and then a closure.
fn takes(heap: &Heap, args: &[Value]) -> bool
    ensures { result ≡ spec.takes heap.now args.now }
{
    match args.last() {
        Some(last) => closure_at(heap, *last) && opens(heap, &args[..args.len() - 1]),
        None => false,
    }
}

fn opens(heap: &Heap, before: &[Value]) -> bool
    ensures { result ≡ spec.opens heap.now before.now }
{
    match before {
        [Value::Obj(id)] => is_list_of_classes(heap.get(*id)),
        _ => are_classes(before),
    }
}

fn is_list_of_classes(object: Option<&Object>) -> bool
    ensures { result ≡ spec.is_list_of_classes (option_copied object.entry) }
{
    match object {
        Some(Object::List(elements)) => are_classes(elements.as_slice()),
        _ => false,
    }
}

fn are_classes(values: &[Value]) -> bool
    ensures { result ≡ spec.are_classes values.now }
{
    for value in values {
        if !is_class(*value) {
            return false;
        }
    }
    true
}

fn is_class(value: Value) -> bool
    ensures { result ≡ spec.is_class value }
{
    matches!(value, Value::Class(_))
}

fn closure_at(heap: &Heap, value: Value) -> bool
    ensures { result ≡ spec.closure_at heap.now value }
{
    match value {
        Value::Obj(id) => is_closure(heap, id),
        _ => false,
    }
}
