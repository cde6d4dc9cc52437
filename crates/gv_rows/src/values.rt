ghost use Rattle.std.specs.Prelude.{◌≡◌, Some};
ghost use Rattle.gv_rows.specs.Values as spec;

use gv_base::{ClassId, MetaObject, NULL_KIND, Names, Value};
use gv_classes::{
    BOOLEAN, CLASS, CLOSURE, Classes, ENTRY, GSTRING, INTEGER, LIST, LONG, MAP, META_CLASS,
    META_MEMBER, META_METHOD, OBJECT, RANGE, STRING,
};
use gv_heap::{Heap, Object};

/// The class of a value; null has `NULL_KIND`.
pub fn class_of(heap: &Heap, value: Value) -> ClassId
    ensures { result ≡ spec.class_of heap.now value }
{
    match value {
        Value::Null => NULL_KIND,
        Value::Bool(_) => BOOLEAN,
        Value::Int(_) => INTEGER,
        Value::Long(_) => LONG,
        Value::Class(_) => CLASS,
        Value::Obj(id) => match heap.get(id) {
            Some(object) => object_class(object),
            None => OBJECT,
        },
    }
}

fn object_class(object: &Object) -> ClassId
    ensures { result ≡ spec.object_class (Some object.now) }
{
    match object {
        Object::Text(_) => STRING,
        Object::GString(_) => GSTRING,
        Object::List(_) => LIST,
        Object::Map(_) => MAP,
        Object::Range(_) => RANGE,
        Object::Closure(_) => CLOSURE,
        Object::Entry { .. } => ENTRY,
        Object::Instance(instance) => instance.class,
        Object::Meta(meta) => meta_class(*meta),
    }
}

fn meta_class(meta: MetaObject) -> ClassId
    ensures { result ≡ spec.meta_class meta }
{
    match meta {
        MetaObject::Class { .. } => META_CLASS,
        MetaObject::Member { .. } => META_MEMBER,
        MetaObject::Method { .. } => META_METHOD,
    }
}

/// The name of a class; none for a class that isn't there.
pub fn class_name<'a>(names: &'a Names, classes: &Classes, class: ClassId) -> &'a str
    ensures { result.now ≡ spec.class_text names.now classes.now class }
{
    if class < classes.len() {
        names.text(classes.get(class).name)
    } else {
        ""
    }
}
