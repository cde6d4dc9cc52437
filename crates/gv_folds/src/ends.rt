//! What a fold answers.

ghost use Rattle.std.specs.Prelude.{◌≡◌, reverse};
ghost use Rattle.gv_heap.specs.declared.object.Object.TheVariants as object;
ghost use Rattle.gv_folds.specs.Folds as spec;

use crate::fold::Keeping;
use crate::source::Handed;
use crate::turn::FoldTurn;
use gv_base::{OutOfMemory, Value};
use gv_code::Stack;
use gv_heap::{Heap, HeapError};
use gv_rows::integer_of;
use std::alloc::Global;

/// What a fold answers behind its last element.
pub(crate) fn ended(
    alloc: Global,
    heap: &mut Heap,
    keeping: Keeping,
) -> Result<FoldTurn, OutOfMemory>
    ensures { spec.Turns heap.old (spec.ended keeping) result heap.new }
{
    match keeping {
        Keeping::Each(value) | Keeping::Injected(value) => Ok(FoldTurn::Done(value)),
        Keeping::Collected(values) | Keeping::FoundAll(values) => list_answer(alloc, heap, &values),
        Keeping::Found => Ok(FoldTurn::Done(Value::Null)),
        Keeping::Any => Ok(FoldTurn::Done(Value::Bool(false))),
        Keeping::Every => Ok(FoldTurn::Done(Value::Bool(true))),
        Keeping::Counted(count) => Ok(FoldTurn::Done(integer_of(count))),
    }
}

/// What a search answers that a true answer ends.
pub(crate) fn found(heap: &mut Heap, handed: Handed) -> Result<FoldTurn, OutOfMemory>
    ensures { spec.Turns heap.old (spec.found handed) result heap.new }
{
    match handed {
        Handed::Nothing => Ok(FoldTurn::Done(Value::Null)),
        Handed::Element(value) => Ok(FoldTurn::Done(value)),
        Handed::Pair(key, value) => match heap.make_entry(key, value) {
            Ok(id) => Ok(FoldTurn::Done(Value::Obj(id))),
            Err(HeapError::CellsSpent) => Ok(FoldTurn::CellsSpent),
            Err(HeapError::OutOfMemory) => Err(OutOfMemory),
        },
    }
}

/// A new list of values that were kept.
fn list_answer(
    alloc: Global,
    heap: &mut Heap,
    values: &Stack<Value>,
) -> Result<FoldTurn, OutOfMemory>
    ensures { spec.Turns heap.old (spec.list_answer (reverse values.now)) result heap.new }
{
    let elements = Vec::from_slice(alloc, values.last(values.len()))?;
    match heap.make_list(elements) {
        Ok(id) => Ok(FoldTurn::Done(Value::Obj(id))),
        Err(HeapError::CellsSpent) => Ok(FoldTurn::CellsSpent),
        Err(HeapError::OutOfMemory) => Err(OutOfMemory),
    }
}
