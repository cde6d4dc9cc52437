ghost use Rattle.std.specs.Prelude.{◌≡◌, IfOk, Some};
ghost use Rattle.gv_calls.specs.Told.{answer_of};
ghost use Rattle.gv_meaning.specs.Calls as spec;

use crate::told::Told;
use gv_base::{ExceptionKind, OutOfMemory, Value};
use gv_classes::exception_class;
use gv_heap::HeapError;
use gv_meaning::{Why, World};
use std::alloc::Global;

/// Throws an exception with a message, which is made for its price.
pub(crate) fn raise(
    alloc: Global,
    world: &mut World,
    kind: ExceptionKind,
    message: &str,
) -> Result<Told, OutOfMemory>
    ensures { IfOk result (λ told. answer_of told world.new ≡ spec.raised kind (Some message.now) world.old) }
{
    match world.heap.make_text(message) {
        Ok(id) => throw_with(alloc, world, kind, Value::Obj(id)),
        Err(HeapError::CellsSpent) => Ok(Told::Stopped(Why::Cells)),
        Err(HeapError::OutOfMemory) => Err(OutOfMemory),
    }
}

/// Throws an exception whose message is made: an instance with it, and without a cause.
fn throw_with(
    alloc: Global,
    world: &mut World,
    kind: ExceptionKind,
    message: Value,
) -> Result<Told, OutOfMemory>
    ensures { IfOk result (λ told. answer_of told world.new ≡ spec.thrown_with kind message world.old) }
{
    let fields = Vec::from_slice(alloc, &[message, Value::Null])?;
    match world.heap.make_instance(exception_class(kind), fields, 0) {
        Ok(id) => Ok(Told::Threw(Value::Obj(id))),
        Err(HeapError::CellsSpent) => Ok(Told::Stopped(Why::Cells)),
        Err(HeapError::OutOfMemory) => Err(OutOfMemory),
    }
}
