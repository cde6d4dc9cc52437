ghost use Rattle.std.specs.Prelude.{◌≡◌, ◌+◌, ◌*◌, ◌<◌, ◌≤◌, true, false, drop, length, reverse, take, IfOk};
ghost use Rattle.gv_rows.specs.Reply.{Did};
ghost use Rattle.gv_rows.specs.Reply as spec;
ghost use Rattle.gv_rows.specs.Values.{sequence_at};

use gv_base::{ObjId, OutOfMemory, Value};
use gv_heap::Heap;
use gv_rows::{Done, Sequence, new_list};
use std::alloc::Global;

/// Whether the cells that are left don't pay a list of so many elements.
pub(crate) fn is_too_dear(heap: &Heap, count: usize) -> bool
    ensures yes { result ≡ true → heap.now.cells < 1 + count }
    ensures no { result ≡ false → 1 + count ≤ heap.now.cells }
{
    heap.cells_left() <= count as u64
}

/// The same for so many elements and so many more.
pub(crate) fn is_sum_too_dear(heap: &Heap, count: usize, more: usize) -> bool
    ensures yes { result ≡ true → heap.now.cells < 1 + (count + more) }
    ensures no { result ≡ false → 1 + (count + more) ≤ heap.now.cells }
{
    u128::from(heap.cells_left()) <= count as u128 + more as u128
}

/// The same for so many elements so many times.
pub(crate) fn is_product_too_dear(heap: &Heap, times: usize, count: usize) -> bool
    ensures yes { result ≡ true → heap.now.cells < 1 + times * count }
    ensures no { result ≡ false → 1 + times * count ≤ heap.now.cells }
{
    let cells = heap.cells_left();
    match (times as u64).checked_mul(count as u64) {
        Some(product) => cells <= product,
        None => true,
    }
}

/// Answers a new List of so many elements of a list from a place on, for its price.
pub(crate) fn new_part(
    alloc: Global,
    heap: &mut Heap,
    list: ObjId,
    from: usize,
    count: usize,
) -> Done
    requires { from + count ≤ length (sequence_at heap.old list) }
    ensures { Did heap.old (spec.new_list heap.old (take count (drop from (sequence_at heap.old list)))) result heap.new }
{
    if is_too_dear(heap, count) {
        return Done::CellsSpent;
    }
    match Sequence::at(heap, list).copy(alloc, from, count) {
        Ok(items) => new_list(heap, items),
        Err(_) => Done::OutOfMemory,
    }
}

/// Answers a new List of the elements of a list backwards, for its price.
pub(crate) fn new_reverse(alloc: Global, heap: &mut Heap, list: ObjId) -> Done
    ensures { Did heap.old (spec.new_list heap.old (reverse (sequence_at heap.old list))) result heap.new }
{
    let items = Sequence::at(heap, list);
    if is_too_dear(heap, items.len()) {
        return Done::CellsSpent;
    }
    match backwards(alloc, &items) {
        Ok(items) => new_list(heap, items),
        Err(_) => Done::OutOfMemory,
    }
}

fn backwards(alloc: Global, items: &Sequence) -> Result<Vec<Value>, OutOfMemory>
    ensures { IfOk result (λ back. back.items ≡ reverse items.now) }
{
    let mut back = items.copy(alloc, 0, items.len())?;
    back.reverse();
    Ok(back)
}
