ghost use Rattle.std.specs.Prelude.{◌≡◌, true, Some};
ghost use Rattle.gv_natives.specs.Table.{method_of};
ghost use Rattle.gv_heap.specs.Heap.{object_at};
ghost use Rattle.gv_rows.specs.Takes as spec;
ghost use Rattle.gv_lists.specs.Rows.{IsReceiver};

use gv_base::{ObjId, Value};
use gv_heap::{Heap, Object};
use gv_natives::{Row, Takes};

/// Whether the arguments are as many as a row takes, and each is of its kind.
pub(crate) fn takes_all(heap: &Heap, row: &Row, args: &[Value]) -> bool
    ensures { result ≡ spec.takes_all heap.now (method_of row.now) args.now }
{
    match args {
        [] => true,
        [first] => takes_value(heap, row.first, *first),
        [first, second] => {
            takes_value(heap, row.first, *first) && takes_value(heap, row.second, *second)
        }
        _ => false,
    }
}

/// Whether a parameter takes a value. Null passes for each kind.
fn takes_value(heap: &Heap, takes: Takes, value: Value) -> bool
    ensures { result ≡ spec.takes_value heap.now takes value }
{
    match value {
        Value::Null => true,
        Value::Int(_) => takes_integer(takes),
        Value::Long(_) => takes_long(takes),
        Value::Obj(id) => match heap.get(id) {
            Some(object) => takes_object(takes, object),
            None => false,
        },
        Value::Bool(_) | Value::Class(_) => takes == Takes::Any,
    }
}

fn takes_integer(takes: Takes) -> bool
    ensures { result ≡ spec.takes_integer takes }
{
    match takes {
        Takes::Any | Takes::Integer | Takes::Number | Takes::NumberOrText | Takes::IntegerOrList =>
            true,
        _ => false,
    }
}

fn takes_long(takes: Takes) -> bool
    ensures { result ≡ spec.takes_long takes }
{
    match takes {
        Takes::Any | Takes::Number | Takes::NumberOrText => true,
        _ => false,
    }
}

fn takes_object(takes: Takes, object: &Object) -> bool
    ensures { result ≡ spec.takes_object takes (Some object.now) }
{
    match takes {
        Takes::Any => true,
        Takes::Text | Takes::NumberOrText => matches!(object, Object::Text(_)),
        Takes::IntegerOrList | Takes::List => {
            matches!(object, Object::List(_) | Object::Range(_))
        }
        Takes::Map => matches!(object, Object::Map(_)),
        Takes::Closure => matches!(object, Object::Closure(_)),
        Takes::Nothing | Takes::Integer | Takes::Number => false,
    }
}

/// Whether a value is a List or a Range that is there.
pub(crate) fn is_receiver(heap: &Heap, receiver: Value) -> bool
    ensures { result ≡ true → IsReceiver heap.now receiver }
{
    match receiver {
        Value::Obj(id) => is_sequence(heap, id),
        _ => false,
    }
}

fn is_sequence(heap: &Heap, id: ObjId) -> bool
    ensures { result ≡ spec.is_sequence (object_at heap.now id) }
{
    matches!(heap.get(id), Some(Object::List(_) | Object::Range(_)))
}
