//! How two values are compared.

ghost use Rattle.std.specs.Prelude.{◌≡◌, ◌==◌};
ghost use Rattle.gv_heap.specs.Heap.{object_at};
ghost use Rattle.gv_equals.specs.Equals as spec;

use gv_base::{ObjId, Value, plain_equal};
use gv_heap::{Heap, Object};
use gv_rows::Sequence;

/// How two values are compared.
#[derive(Clone, Copy, Debug, PartialEq, Eq)]
pub(crate) enum Compared {
    /// It is known whether they are equal.
    Decided(bool),
    /// By their texts.
    Texts,
    /// By what lies in them.
    Opens,
    /// The left one is asked.
    Asked,
}

/// What an object is for a comparison.
#[derive(Clone, Copy, Debug, PartialEq, Eq)]
pub(crate) enum Kind {
    Instance,
    Text,
    Sequence,
    Map,
    Other,
}

pub(crate) fn compare(heap: &Heap, left: Value, right: Value) -> Compared
    ensures { result ≡ spec.compare heap.now left right }
{
    match plain_equal(left, right) {
        Some(same) => Compared::Decided(same),
        None => compare_values(heap, left, right),
    }
}

fn compare_values(heap: &Heap, left: Value, right: Value) -> Compared
    ensures { result ≡ spec.compare_values heap.now left right }
{
    match (left, right) {
        (Value::Obj(i), Value::Obj(j)) => compare_objects(heap, i, j),
        (Value::Obj(i), _) => match kind_of(heap, i) {
            Kind::Instance => Compared::Asked,
            _ => Compared::Decided(false),
        },
        _ => Compared::Decided(false),
    }
}

fn compare_objects(heap: &Heap, i: ObjId, j: ObjId) -> Compared
    ensures { result ≡ spec.compare_objects heap.now i j }
{
    match (kind_of(heap, i), kind_of(heap, j)) {
        (Kind::Instance, _) => Compared::Asked,
        (Kind::Text, Kind::Text) => Compared::Texts,
        (Kind::Sequence, Kind::Sequence) | (Kind::Map, Kind::Map) => by_size(heap, i, j),
        _ => Compared::Decided(i == j),
    }
}

fn by_size(heap: &Heap, i: ObjId, j: ObjId) -> Compared
    ensures { result ≡ spec.by_size (spec.size_of (object_at heap.now i) == spec.size_of (object_at heap.now j)) }
{
    if size_of(heap, i) == size_of(heap, j) {
        Compared::Opens
    } else {
        Compared::Decided(false)
    }
}

fn kind_of(heap: &Heap, id: ObjId) -> Kind
    ensures { result ≡ spec.kind_of (object_at heap.now id) }
{
    match heap.get(id) {
        Some(Object::Instance(_)) => Kind::Instance,
        Some(Object::Text(_) | Object::GString(_)) => Kind::Text,
        Some(Object::List(_) | Object::Range(_)) => Kind::Sequence,
        Some(Object::Map(_)) => Kind::Map,
        _ => Kind::Other,
    }
}

fn size_of(heap: &Heap, id: ObjId) -> usize
    ensures { result ≡ spec.size_of (object_at heap.now id) }
{
    match heap.get(id) {
        Some(Object::Map(entries)) => entries.len(),
        _ => Sequence::at(heap, id).len(),
    }
}
