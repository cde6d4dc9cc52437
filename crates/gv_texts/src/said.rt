//! What a value says of itself.

ghost use Rattle.std.specs.Prelude.{◌≡◌, IfOk, string_bytes};
ghost use Rattle.gv_heap.specs.Heap.{object_at};
ghost use Rattle.gv_texts.specs.Texts.{IsSaid, Says, meta_text, object_saying, saying};

use gv_base::{MetaObject, Names, ObjId, OutOfMemory, Value};
use gv_classes::Classes;
use gv_heap::{Heap, Object};
use gv_rows::class_name;
use itoa::Buffer;

/// What was done of a value's text.
#[derive(Clone, Copy, Debug, PartialEq, Eq)]
pub(crate) enum Said {
    /// The text was put.
    Done,
    /// An entry's key and its value are to be said.
    Pairs(Value, Value),
    /// The value is to be entered.
    Opens,
    /// The value is to be asked.
    Asked,
}

/// Puts the text of a value behind another one, where it says one at once.
pub(crate) fn say(
    names: &Names,
    classes: &Classes,
    heap: &Heap,
    value: Value,
    text: &mut String,
) -> Result<Said, OutOfMemory>
    ensures { IfOk result (λ said. IsSaid (saying names.now classes.now heap.now value) (string_bytes text.old) said (string_bytes text.new)) }
{
    match value {
        Value::Null => put("null", text),
        Value::Bool(true) => put("true", text),
        Value::Bool(false) => put("false", text),
        Value::Int(number) => put(Buffer::new().format(number), text),
        Value::Long(number) => put(Buffer::new().format(number), text),
        Value::Class(class) => {
            text.push_str("class ")?;
            put(class_name(names, classes, class), text)
        }
        Value::Obj(id) => say_object(heap, id, text),
    }
}

fn say_object(heap: &Heap, id: ObjId, text: &mut String) -> Result<Said, OutOfMemory>
    ensures { IfOk result (λ said. IsSaid (object_saying (object_at heap.now id)) (string_bytes text.old) said (string_bytes text.new)) }
{
    match heap.get(id) {
        Some(Object::Text(said)) => put(said.as_str(), text),
        Some(Object::Closure(_)) => put("Closure", text),
        Some(Object::Meta(meta)) => put(meta_text(meta), text),
        Some(Object::Entry { key, value }) => Ok(Said::Pairs(*key, *value)),
        Some(Object::Instance(_)) => Ok(Said::Asked),
        Some(Object::GString(_) | Object::List(_) | Object::Map(_) | Object::Range(_)) => {
            Ok(Said::Opens)
        }
        None => Ok(Said::Done),
    }
}

fn put(said: &str, text: &mut String) -> Result<Said, OutOfMemory>
    ensures { IfOk result (λ done. IsSaid (Says said.now) (string_bytes text.old) done (string_bytes text.new)) }
{
    text.push_str(said)?;
    Ok(Said::Done)
}

fn meta_text(meta: &MetaObject) -> &'static str
    ensures { result.now ≡ meta_text meta.now }
{
    match meta {
        MetaObject::Class { .. } => "MetaClass",
        MetaObject::Member { .. } => "MetaMember",
        MetaObject::Method { .. } => "MetaMethod",
    }
}
