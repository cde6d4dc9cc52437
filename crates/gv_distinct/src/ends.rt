//! What a method answers.

ghost use Rattle.gv_distinct.specs.Distinct as spec;

use crate::distinct::{Dropping, Progress};
use crate::turn::DistinctTurn;
use gv_base::{ObjId, OutOfMemory, Value};
use gv_heap::{Heap, HeapError};
use gv_refill::refill;
use sqlite_items::Items;
use std::alloc::Global;

/// What the elements come to, or the next question.
pub(crate) fn finish(
    alloc: Global,
    heap: &mut Heap,
    progress: Progress,
) -> Result<DistinctTurn, OutOfMemory>
    ensures { spec.Turns heap.old progress result heap.new }
{
    match progress {
        Progress::Asks {
            distinct,
            receiver,
            question,
        } => Ok(DistinctTurn::Asks {
            distinct,
            receiver,
            question,
        }),
        Progress::Ended { dropping, kept } => match dropping {
            Dropping::Others(_) => list_answer(alloc, heap, &kept),
            Dropping::Repeated(list) => refill_answer(heap, list, &kept),
        },
    }
}

/// A new list of what was kept.
fn list_answer(
    alloc: Global,
    heap: &mut Heap,
    kept: &Items<Value>,
) -> Result<DistinctTurn, OutOfMemory>
    ensures { spec.Answers (spec.MakesList heap.old kept.now) result heap.new }
{
    let elements = Vec::from_slice(alloc, kept.as_slice())?;
    match heap.make_list(elements) {
        Ok(id) => Ok(DistinctTurn::Done(Value::Obj(id))),
        Err(HeapError::CellsSpent) => Ok(DistinctTurn::CellsSpent),
        Err(HeapError::OutOfMemory) => Err(OutOfMemory),
    }
}

/// The list, with what was kept in place of all its elements.
fn refill_answer(
    heap: &mut Heap,
    list: ObjId,
    kept: &Items<Value>,
) -> Result<DistinctTurn, OutOfMemory>
    ensures { spec.Answers (spec.PutsInList heap.old list kept.now) result heap.new }
{
    match refill(heap, list, kept.as_slice()) {
        Ok(()) => Ok(DistinctTurn::Done(Value::Obj(list))),
        Err(HeapError::CellsSpent) => Ok(DistinctTurn::CellsSpent),
        Err(HeapError::OutOfMemory) => Err(OutOfMemory),
    }
}
