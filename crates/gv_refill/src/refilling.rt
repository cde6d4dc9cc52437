ghost use Rattle.std.specs.Prelude.{◌≡◌, ◌≤◌, ◌∷◌, [], length, OnOk};
ghost use Rattle.gv_heap.specs.Heap.{list_at, object_at};
ghost use Rattle.gv_heap.specs.Kinds.{IsListObject};
ghost use Rattle.gv_refill.specs.Refill as spec;

use gv_base::{ObjId, OutOfMemory, Value};
use gv_heap::{Heap, HeapError, Object};

/// Puts elements in place of all those of a list, and pays a cell for each by which it grows. Nothing happens where the object is
/// no list, or the cells aren't left; after want of memory the list may hold some of them.
pub fn refill(heap: &mut Heap, list: ObjId, elements: &[Value]) -> Result<(), HeapError>
    ensures { spec.Refills heap.old list elements.now result heap.new }
{
    if is_list(heap, list) {
        refill_list(heap, list, elements)
    } else {
        Ok(())
    }
}

fn is_list(heap: &Heap, id: ObjId) -> bool
    ensures { result ≡ spec.is_list (object_at heap.now id) }
{
    matches!(heap.get(id), Some(Object::List(_)))
}

fn refill_list(heap: &mut Heap, list: ObjId, elements: &[Value]) -> Result<(), HeapError>
    requires { IsListObject (object_at heap.old list) }
    ensures { spec.ListRefills heap.old list elements.now result heap.new }
{
    let size = heap.list(list).len();
    if elements.len() <= size {
        fit(heap, list, elements);
        return Ok(());
    }
    if heap.cells_left() < (elements.len() - size) as u64 {
        return Err(HeapError::CellsSpent);
    }
    extend(heap, list, elements)?;
    Ok(())
}

/// Puts elements in place of no fewer ones.
#[tactic(auto, using(crate::proofs::Heaps::ending))]
fn fit(heap: &mut Heap, list: ObjId, elements: &[Value])
    requires kind { IsListObject (object_at heap.old list) }
    requires count { length elements.now ≤ length (list_at heap.old list) }
    ensures { heap.new ≡ spec.refilled heap.old list elements.now }
{
    begin(heap, list, elements, elements.len());
    shorten(heap, list, elements.len());
}

/// Puts elements in place of no more ones.
#[tactic(auto, using(crate::proofs::Heaps::ending))]
fn extend(heap: &mut Heap, list: ObjId, elements: &[Value]) -> Result<(), OutOfMemory>
    requires kind { IsListObject (object_at heap.old list) }
    requires count { length (list_at heap.old list) ≤ length elements.now }
    ensures { OnOk result (heap.new ≡ spec.refilled heap.old list elements.now) }
{
    let size = heap.list(list).len();
    begin(heap, list, elements, size);
    push_each(heap, list, &elements[size..])?;
    Ok(())
}

/// Puts so many elements in place of as many first ones of a list.
#[tactic(auto, using(crate::proofs::Heaps::beginning))]
fn begin(heap: &mut Heap, list: ObjId, elements: &[Value], count: usize)
    requires kind { IsListObject (object_at heap.old list) }
    requires count { count ≤ length elements.now }
    requires places { count ≤ length (list_at heap.old list) }
    ensures { heap.new ≡ spec.begun heap.old list elements.now count }
{
    for at in 0..count {
        heap.set_item(list, at, elements[at]);
    }
}

/// Leaves so many first elements of a list.
#[tactic(auto, using(crate::proofs::Heaps::shortening))]
fn shorten(heap: &mut Heap, list: ObjId, count: usize)
    requires kind { IsListObject (object_at heap.old list) }
    requires count { count ≤ length (list_at heap.old list) }
    ensures { heap.new ≡ spec.shortened heap.old list count }
{
    let mut left = heap.list(list).len();
    while left > count {
        left -= 1;
        heap.remove_item(list, left);
    }
}

/// Puts elements last, for as long as they can be paid.
#[tactic(auto, using(crate::proofs::Heaps::growing))]
fn push_each(heap: &mut Heap, list: ObjId, last: &[Value]) -> Result<(), OutOfMemory>
    requires { IsListObject (object_at heap.old list) }
    ensures { OnOk result (heap.new ≡ spec.grown heap.old list last.now) }
{
    for x in last {
        push_one(heap, list, *x)?;
    }
    Ok(())
}

/// Puts an element last.
fn push_one(heap: &mut Heap, list: ObjId, x: Value) -> Result<(), OutOfMemory>
    requires { IsListObject (object_at heap.old list) }
    ensures { OnOk result (heap.new ≡ spec.grown heap.old list (x ∷ [])) }
{
    match heap.push(list, x) {
        Ok(()) => Ok(()),
        Err(_) => Err(OutOfMemory),
    }
}
