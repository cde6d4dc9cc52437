//! Methods that ask for one call.

ghost use Rattle.std.specs.Prelude.{◌≡◌, true, IfOk};
ghost use Rattle.gv_heap.specs.Heap.{object_at};
ghost use Rattle.gv_heap.specs.Kinds.{IsClosureObject};
ghost use Rattle.gv_rows.specs.Takes.{is_closure as is_closure_object};
ghost use Rattle.gv_calling.specs.Calling as spec;

use gv_base::{ObjId, OutOfMemory, Value};
use gv_frames::{Called, Turn, WalkFrame};
use gv_heap::{Heap, HeapError, Object};
use sqlite_items::Items;
use std::alloc::Global;

/// The strategy of a closure whose delegate comes before its owner.
const DELEGATE_FIRST: u8 = 1;

/// Asks for a call, and answers what that answers.
pub fn one_call(receiver: Value, called: Called, args: Items<Value>) -> Turn
    ensures { result ≡ spec.one_call receiver called args }
{
    Turn::Call {
        frame: WalkFrame::Answer,
        receiver,
        called,
        args,
    }
}

/// Calls a copy of a closure with the receiver, which is the copy's delegate. Where the object is no closure, nothing is called, and the
/// answer is null.
pub fn start_with(alloc: Global, heap: &mut Heap, receiver: Value, closure: ObjId) -> Turn
    ensures { spec.Withs heap.old receiver (object_at heap.old closure) result heap.new }
{
    if !is_closure(heap, closure) {
        return Turn::Done(Value::Null);
    }
    match heap.copy_closure(closure, receiver, DELEGATE_FIRST) {
        Ok(copy) => match call_with(alloc, Value::Obj(copy), receiver) {
            Ok(turn) => turn,
            Err(OutOfMemory) => Turn::OutOfMemory,
        },
        Err(HeapError::CellsSpent) => Turn::CellsSpent,
        Err(HeapError::OutOfMemory) => Turn::OutOfMemory,
    }
}

/// The call of a closure with one argument.
fn call_with(alloc: Global, closure: Value, argument: Value) -> Result<Turn, OutOfMemory>
    ensures { IfOk result (λ turn. turn ≡ spec.call_with closure argument) }
{
    let mut args = Items::new(alloc);
    args.push(argument)?;
    Ok(one_call(closure, Called::Call, args))
}

pub(crate) fn is_closure(heap: &Heap, id: ObjId) -> bool
    ensures is { result ≡ is_closure_object (object_at heap.now id) }
    ensures kind { result ≡ true → IsClosureObject (object_at heap.now id) }
{
    matches!(heap.get(id), Some(Object::Closure(_)))
}
