ghost use Rattle.std.specs.Prelude.{◌≡◌, slice_get};
ghost use Rattle.gv_rows.specs.Reply.{Did, just};
ghost use Rattle.gv_rows.specs.Values.{from_end, natural};

use gv_base::Value;
use gv_heap::Heap;
use gv_rows::{Done, Sequence};

/// Answers a value, and makes nothing.
#[tactic(auto, using(gv_rows::proofs::CallerLemmas::did_just))]
pub(crate) fn answer(heap: &Heap, value: Value) -> Done
    ensures { Did heap.now (just heap.now value) result heap.now }
{
    Done::Value(value)
}

/// The element at a place, if there is one.
pub(crate) fn element_in(items: &Sequence, at: usize) -> Option<Value>
    ensures { result ≡ slice_get items.now at }
{
    if at < items.len() {
        Some(items.get(at))
    } else {
        None
    }
}

/// The place that a number is among so many elements: from the end where it is negative; None where it is before the start.
pub(crate) fn place_in(size: usize, n: i64) -> Option<usize>
    ensures { result ≡ natural (from_end size n) }
{
    if n < 0 {
        usize::try_from(i128::from(n) + size as i128).ok()
    } else {
        usize::try_from(n).ok()
    }
}
