//! Which keys have an order among themselves.

ghost use Rattle.std.specs.Prelude.{◌≡◌, drop};
ghost use Rattle.gv_heap.specs.Heap.{object_at};
ghost use Rattle.gv_ranks.specs.Judged as spec;

use gv_base::{ClassId, ObjId, Value};
use gv_heap::{Heap, Object};
use gv_rows::class_of;

/// An element, and the key by which it is ordered.
#[derive(Clone, Copy, Debug, PartialEq, Eq)]
pub struct Keyed {
    pub key: Value,
    pub element: Value,
}

/// What a key is, as far as its order tells.
#[derive(Clone, Copy, Debug, PartialEq, Eq)]
pub enum Kind {
    /// Null, which may stand among all others.
    Null,
    /// An Integer or a Long.
    Number,
    /// A String, or a string with parts.
    Text,
    /// A Boolean.
    Truth,
    /// A value that has no order.
    Unordered,
}

/// Whether keys can be ordered.
#[derive(Clone, Copy, Debug, PartialEq, Eq)]
pub enum Judged {
    Orders,
    /// Keys of these two classes bar it.
    Bars(ClassId, ClassId),
}

/// What a key is.
pub fn kind_of(heap: &Heap, key: Value) -> Kind
    ensures { result ≡ spec.kind_of heap.now key }
{
    match key {
        Value::Null => Kind::Null,
        Value::Bool(_) => Kind::Truth,
        Value::Int(_) | Value::Long(_) => Kind::Number,
        Value::Class(_) => Kind::Unordered,
        Value::Obj(id) => object_kind(heap, id),
    }
}

fn object_kind(heap: &Heap, id: ObjId) -> Kind
    ensures { result ≡ spec.object_kind (object_at heap.now id) }
{
    match heap.get(id) {
        Some(Object::Text(_) | Object::GString(_)) => Kind::Text,
        _ => Kind::Unordered,
    }
}

/// Whether a key of the other kind may stand beside a first one of this kind.
fn fits(first: Kind, other: Kind) -> bool
    ensures { result ≡ spec.fits first other }
{
    matches!(
        (first, other),
        (_, Kind::Null)
            | (Kind::Number, Kind::Number)
            | (Kind::Text, Kind::Text)
            | (Kind::Truth, Kind::Truth)
    )
}

fn is_null(key: Value) -> bool
    ensures { result ≡ spec.is_null key }
{
    matches!(key, Value::Null)
}

/// Whether these keys can be ordered: each but null beside the first one that isn't null.
pub fn judge(heap: &Heap, keyed: &[Keyed]) -> Judged
    ensures { result ≡ spec.judged heap.now keyed.now }
{
    let mut at = 0;
    while at < keyed.len() {
        let key = keyed[at].key;
        if !is_null(key) {
            return judge_beside(heap, key, keyed, at);
        }
        at += 1;
    }
    Judged::Orders
}

/// The same of keys from a place on, beside a first one.
fn judge_beside(heap: &Heap, first: Value, keyed: &[Keyed], from: usize) -> Judged
    ensures { result ≡ spec.judged_beside heap.now first (drop from keyed.now) }
{
    let mut at = from;
    while at < keyed.len() {
        let key = keyed[at].key;
        if !fits(kind_of(heap, first), kind_of(heap, key)) {
            return Judged::Bars(class_of(heap, first), class_of(heap, key));
        }
        at += 1;
    }
    Judged::Orders
}
