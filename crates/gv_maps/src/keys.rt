ghost use Rattle.gv_maps.specs.Keys as spec;
ghost use Rattle.gv_rows.specs.Reply.{Did};

use gv_base::{ExceptionKind, Names, Value};
use gv_classes::Classes;
use gv_heap::Heap;
use gv_rows::{Done, class_name, class_of, throw_joined};
use std::alloc::Global;

/// Throws what a value throws that can't be a key.
pub(crate) fn no_key(alloc: Global, names: &Names, classes: &Classes, heap: &Heap, x: Value) -> Done
    ensures { Did heap.now (spec.no_key names.now classes.now heap.now x) result heap.now }
{
    let class = class_name(names, classes, class_of(heap, x));
    throw_joined(
        alloc,
        ExceptionKind::UnsupportedOperationException,
        "Map key of class ",
        class,
    )
}
