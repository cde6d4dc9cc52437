//! What is thrown.

ghost use Rattle.std.specs.Prelude.{◌≡◌, IfOk};
ghost use Rattle.gv_groups.specs.Groups as spec;

use gv_base::{Names, OutOfMemory, Value};
use gv_classes::Classes;
use gv_heap::Heap;
use gv_rows::{Message, class_name, class_of};
use std::alloc::Global;

/// What a value throws that can be no key.
pub(crate) fn no_key(
    alloc: Global,
    names: &Names,
    classes: &Classes,
    heap: &Heap,
    value: Value,
) -> Result<Message, OutOfMemory>
    ensures { IfOk result (λ message. message ≡ spec.no_key names.now classes.now heap.now value) }
{
    let mut text = String::new(alloc);
    text.push_str("Map key of class ")?;
    text.push_str(class_name(names, classes, class_of(heap, value)))?;
    Ok(Message::new(text))
}

/// What an answer throws that is no entry.
pub(crate) fn no_entry(alloc: Global) -> Result<Message, OutOfMemory>
    ensures { IfOk result (λ message. message ≡ spec.no_entry) }
{
    let mut text = String::new(alloc);
    text.push_str("Not an entry")?;
    Ok(Message::new(text))
}
