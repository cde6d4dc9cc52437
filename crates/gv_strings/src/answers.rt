ghost use Rattle.std.specs.Prelude.{◌≡◌, ◌+◌, ◌/◌, ◌<◌, ◌≤◌, true, false, MatchResult, string_bytes};
ghost use Rattle.gv_rows.specs.Reply.{Did, just};
ghost use Rattle.gv_rows.specs.Reply as reply;
ghost use Rattle.gv_rows.specs.Values.{from_end, natural};
ghost use Rattle.gv_rows.specs.declared.done.Done.TheVariants as done;

use gv_base::{OutOfMemory, Value};
use gv_heap::Heap;
use gv_rows::{Done, new_text};

/// Answers a value, and makes nothing.
#[tactic(auto, using(gv_rows::proofs::CallerLemmas::did_just))]
pub(crate) fn answer(heap: &Heap, value: Value) -> Done
    ensures { Did heap.now (just heap.now value) result heap.now }
{
    Done::Value(value)
}

/// Answers a new String of a text, for its price.
pub(crate) fn answer_text(heap: &mut Heap, text: Result<String, OutOfMemory>) -> Done
    ensures { MatchResult text
        (λ text. Did heap.old (reply.new_text heap.old (string_bytes text)) result heap.new)
        (λ _. result ≡ done.OutOfMemory) }
{
    match text {
        Ok(text) => new_text(heap, text.as_str()),
        Err(_) => Done::OutOfMemory,
    }
}

/// Whether the cells that are left don't pay a String of so many bytes.
pub(crate) fn is_too_dear(heap: &Heap, size: usize) -> bool
    ensures yes { result ≡ true → heap.now.cells < 1 + (size + 7) / 8 }
    ensures no { result ≡ false → 1 + (size + 7) / 8 ≤ heap.now.cells }
{
    heap.cells_left() <= size.div_ceil(8) as u64
}

/// The place that a number is among so many characters: from the end where it is negative; None where it is before the
/// start.
pub(crate) fn place_from(size: usize, n: i64) -> Option<usize>
    ensures { result ≡ natural (from_end size n) }
{
    if n < 0 {
        usize::try_from(i128::from(n) + size as i128).ok()
    } else {
        usize::try_from(n).ok()
    }
}
