ghost use Rattle.std.specs.Prelude.{◌≡◌, ◌++◌, ◌∷◌, [], Some};
ghost use Rattle.gv_meaning.specs.Calls as spec;
ghost use Rattle.gv_natives.specs.declared.kinds.Kind.TheVariants.{Object as AnyKind};

use gv_base::Value;
use gv_heap::{Heap, Object};
use gv_natives::Kind;

/// The kinds of receiver that a value is, the nearest first.
pub(crate) fn kinds_of(heap: &Heap, value: Value) -> &'static [Kind]
    ensures { result.now ≡ spec.kinds_of heap.now value }
{
    match value {
        Value::Int(_) | Value::Long(_) => &[Kind::Number, Kind::Object],
        Value::Bool(_) => &[Kind::Boolean, Kind::Object],
        Value::Obj(id) => match heap.get(id) {
            Some(object) => kinds_of_object(object),
            None => &[Kind::Object],
        },
        Value::Null | Value::Class(_) => &[Kind::Object],
    }
}

fn kinds_of_object(object: &Object) -> &'static [Kind]
    ensures { result.now ≡ spec.object_kind (Some object.now) ++ AnyKind ∷ [] }
{
    match object {
        Object::Text(_) => &[Kind::String, Kind::Object],
        Object::List(_) => &[Kind::List, Kind::Object],
        Object::Map(_) => &[Kind::Map, Kind::Object],
        _ => &[Kind::Object],
    }
}
