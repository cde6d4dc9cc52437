ghost use Rattle.std.specs.Prelude.{◌≡◌, IfOk, option_copied};
ghost use Rattle.gv_rows.specs.Values as spec;

use gv_base::{ClassId, Names, ObjId, OutOfMemory, Text, Value};
use gv_classes::Classes;
use gv_heap::{Heap, MapKey, Object};
use std::alloc::Global;

/// The key that a value is in a map, or None where it can't be one. A GString is none here: its text
/// is taken by a walk.
pub fn key_of(
    alloc: Global,
    names: &Names,
    classes: &Classes,
    heap: &Heap,
    value: Value,
) -> Result<Option<MapKey>, OutOfMemory>
    ensures { IfOk result (λ key. key ≡ spec.key_of names.now classes.now heap.now value) }
{
    let key = match value {
        Value::Null => MapKey::Null,
        Value::Bool(b) => MapKey::Bool(b),
        Value::Int(n) => MapKey::Int(n),
        Value::Long(n) => MapKey::Long(n),
        Value::Class(class) => MapKey::Class(class),
        Value::Obj(id) => return object_key(alloc, names, classes, id, heap.get(id)),
    };
    Ok(Some(key))
}

/// The key that an object is.
fn object_key(
    alloc: Global,
    names: &Names,
    classes: &Classes,
    id: ObjId,
    object: Option<&Object>,
) -> Result<Option<MapKey>, OutOfMemory>
    ensures { IfOk result (λ key. key ≡ spec.object_key names.now classes.now id (option_copied object.entry)) }
{
    match object {
        Some(Object::Text(text)) => {
            let text = Text::from_str(alloc, text.as_str())?;
            Ok(Some(MapKey::Text(text)))
        }
        Some(Object::Instance(instance)) => {
            if declares_equals(names, classes, instance.class) {
                Ok(None)
            } else {
                Ok(Some(MapKey::Obj(id)))
            }
        }
        _ => Ok(None),
    }
}

/// Whether a class, or one above it, declares a method `equals`.
fn declares_equals(names: &Names, classes: &Classes, class: ClassId) -> bool
    ensures { result ≡ spec.declares_equals names.now classes.now class }
{
    match names.find("equals") {
        Some(name) => class < classes.len() && classes.declares(class, name),
        None => false,
    }
}
