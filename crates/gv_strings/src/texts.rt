ghost use Rattle.std.specs.Prelude.{◌≡◌};
ghost use Rattle.gv_strings.specs.Texts as spec;

use gv_base::{ObjId, Value};
use gv_heap::{Heap, Object};

/// The text of a String; none for another object.
pub(crate) fn text_at(heap: &Heap, string: ObjId) -> &str
    ensures { result.now ≡ spec.text_at heap.now string }
{
    match heap.get(string) {
        Some(Object::Text(text)) => text.as_str(),
        _ => "",
    }
}

/// The text that an argument is; none for another value.
pub(crate) fn text_in(heap: &Heap, value: Value) -> &str
    ensures { result.now ≡ spec.text_in heap.now value }
{
    match value {
        Value::Obj(string) => text_at(heap, string),
        _ => "",
    }
}
