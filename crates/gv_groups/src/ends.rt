//! What is made at the end.

ghost use Rattle.gv_groups.specs.Groups as spec;

use crate::group::Gathering;
use crate::turn::GroupTurn;
use gv_base::{OutOfMemory, Value};
use gv_gathered::{Gathered, Groups};
use gv_heap::{Heap, HeapError};
use std::alloc::Global;

/// The new map.
pub(crate) fn ended(
    alloc: Global,
    heap: &mut Heap,
    gathering: Gathering,
) -> Result<GroupTurn, OutOfMemory>
    ensures { spec.Turns heap.old (spec.ended gathering) result heap.new }
{
    match gathering {
        Gathering::Groups(groups) => groups_answer(alloc, heap, groups),
        Gathering::Entries(entries) => map_answer(heap, entries),
        Gathering::Found { kept, .. } => map_answer(heap, kept),
    }
}

fn map_answer(heap: &mut Heap, entries: Gathered) -> Result<GroupTurn, OutOfMemory>
    ensures { spec.Turns heap.old (spec.MakesMap entries) result heap.new }
{
    match entries.make(heap) {
        Ok(id) => Ok(GroupTurn::Done(Value::Obj(id))),
        Err(HeapError::CellsSpent) => Ok(GroupTurn::CellsSpent),
        Err(HeapError::OutOfMemory) => Err(OutOfMemory),
    }
}

fn groups_answer(alloc: Global, heap: &mut Heap, groups: Groups) -> Result<GroupTurn, OutOfMemory>
    ensures { spec.Turns heap.old (spec.MakesGroups groups) result heap.new }
{
    match groups.make(alloc, heap) {
        Ok(id) => Ok(GroupTurn::Done(Value::Obj(id))),
        Err(HeapError::CellsSpent) => Ok(GroupTurn::CellsSpent),
        Err(HeapError::OutOfMemory) => Err(OutOfMemory),
    }
}
