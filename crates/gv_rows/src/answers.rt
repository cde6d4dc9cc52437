ghost use Rattle.std.specs.Prelude.{◌≡◌, ◌++◌, IfOk, MatchResult, Some, codes, string_bytes};
ghost use Rattle.gv_base.specs.declared.exception.ExceptionKind.TheVariants.{IllegalArgumentException, UnsupportedOperationException};
ghost use Rattle.gv_rows.specs.Reply.{Did, DoesThrow, said};
ghost use Rattle.gv_rows.specs.Reply as spec;
ghost use Rattle.gv_rows.specs.declared.done.Done.TheVariants as done;

use crate::done::{Done, Message};
use gv_base::{ExceptionKind, OutOfMemory, Value};
use gv_heap::{Heap, HeapError};
use std::alloc::Global;

/// What throws an exception with a text, which was made for it or for which memory was wanting.
pub fn throw(kind: ExceptionKind, text: Result<String, OutOfMemory>) -> Done
    ensures { MatchResult text (λ text. DoesThrow kind (Some (string_bytes text)) result) (λ _. result ≡ done.OutOfMemory) }
{
    match text {
        Ok(text) => Done::Thrown(kind, Message::new(text)),
        Err(_) => Done::OutOfMemory,
    }
}

/// What a row throws that is given null for a kind.
pub fn null_argument(alloc: Global, name: &str) -> Done
    ensures { DoesThrow IllegalArgumentException (said (codes "Null argument: ") name.now) result }
{
    throw_joined(
        alloc,
        ExceptionKind::IllegalArgumentException,
        "Null argument: ",
        name,
    )
}

/// What a row throws that would change a range.
pub fn on_a_range(alloc: Global, name: &str) -> Done
    ensures { DoesThrow UnsupportedOperationException (said name.now (codes "() on a range")) result }
{
    throw_joined(
        alloc,
        ExceptionKind::UnsupportedOperationException,
        name,
        "() on a range",
    )
}

/// What is thrown with a text of two parts.
pub fn throw_joined(alloc: Global, kind: ExceptionKind, front: &str, rest: &str) -> Done
    ensures { DoesThrow kind (said front.now rest.now) result }
{
    throw(kind, joined(alloc, front, rest))
}

fn joined(alloc: Global, front: &str, rest: &str) -> Result<String, OutOfMemory>
    ensures { IfOk result (λ text. string_bytes text ≡ front.now ++ rest.now) }
{
    format!(in alloc; "{front}{rest}")
}

/// Answers a new String, for its price.
pub fn new_text(heap: &mut Heap, text: &str) -> Done
    ensures { Did heap.old (spec.new_text heap.old text.now) result heap.new }
{
    match heap.make_text(text) {
        Ok(id) => Done::Value(Value::Obj(id)),
        Err(HeapError::CellsSpent) => Done::CellsSpent,
        Err(HeapError::OutOfMemory) => Done::OutOfMemory,
    }
}

/// Answers a new List of its elements, for its price.
pub fn new_list(heap: &mut Heap, elements: Vec<Value>) -> Done
    ensures { Did heap.old (spec.new_list heap.old elements.items) result heap.new }
{
    match heap.make_list(elements) {
        Ok(id) => Done::Value(Value::Obj(id)),
        Err(HeapError::CellsSpent) => Done::CellsSpent,
        Err(HeapError::OutOfMemory) => Done::OutOfMemory,
    }
}
