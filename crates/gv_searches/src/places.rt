//! What is removed at a place.

ghost use Rattle.std.specs.Prelude.{◌≡◌, ◌++◌, IfOk, Some, codes, length, string_bytes};
ghost use Rattle.std.specs.Fmt.{decimal, signed_decimal};
ghost use Rattle.gv_base.specs.declared.exception.ExceptionKind.TheVariants.{IndexOutOfBoundsException};
ghost use Rattle.gv_heap.specs.Heap.{list_at};
ghost use Rattle.gv_rows.specs.Reply.{Did, DoesThrow, said};
ghost use Rattle.gv_searches.specs.Places as spec;

use gv_base::{ExceptionKind, ObjId, OutOfMemory};
use gv_heap::{Heap, Object};
use gv_rows::{Done, natural, throw_joined};
use std::alloc::Global;

/// Takes the element at a place out of a list, and answers it. Another number is out of bounds, and so is each one of another object.
pub fn remove_at(alloc: Global, heap: &mut Heap, id: ObjId, at: i32) -> Done
    ensures { Did heap.old (spec.remove_reply heap.old id at) result heap.new }
{
    match natural(i64::from(at)) {
        Some(place) => remove_place(alloc, heap, id, at, place),
        None => throw_outside(alloc, at, size_of(heap, id)),
    }
}

/// Takes out the element at a place, which was given as a number.
#[tactic(auto, using(crate::proofs::Heaps::did_changed, crate::proofs::Heaps::list_with))]
fn remove_place(alloc: Global, heap: &mut Heap, id: ObjId, given: i32, place: usize) -> Done
    ensures { Did heap.old (spec.remove_place heap.old id given (Some place)) result heap.new }
{
    let size = size_of(heap, id);
    if place < size {
        Done::Value(heap.remove_item(id, place))
    } else {
        throw_outside(alloc, given, size)
    }
}

/// How many elements a list has; none, where it is another object.
fn size_of(heap: &Heap, id: ObjId) -> usize
    ensures { result ≡ length (list_at heap.now id) }
{
    match heap.get(id) {
        Some(Object::List(elements)) => elements.as_slice().len(),
        _ => 0,
    }
}

/// A place out of bounds, as it was given, among so many elements.
fn throw_outside(alloc: Global, given: i32, size: usize) -> Done
    ensures { DoesThrow IndexOutOfBoundsException (said (codes "Index: " ++ signed_decimal given) (codes ", Size: " ++ decimal size)) result }
{
    let Ok(index) = index_text(alloc, given) else {
        return Done::OutOfMemory;
    };
    let Ok(size) = size_text(alloc, size) else {
        return Done::OutOfMemory;
    };
    throw_joined(
        alloc,
        ExceptionKind::IndexOutOfBoundsException,
        index.as_str(),
        size.as_str(),
    )
}

fn index_text(alloc: Global, given: i32) -> Result<String, OutOfMemory>
    ensures { IfOk result (λ text. string_bytes text ≡ codes "Index: " ++ signed_decimal given) }
{
    format!(in alloc; "Index: {given}")
}

fn size_text(alloc: Global, size: usize) -> Result<String, OutOfMemory>
    ensures { IfOk result (λ text. string_bytes text ≡ codes ", Size: " ++ decimal size) }
{
    format!(in alloc; ", Size: {size}")
}
