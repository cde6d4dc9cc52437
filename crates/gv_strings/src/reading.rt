ghost use Rattle.std.specs.Prelude.{◌≡◌};
ghost use Rattle.gv_rows.specs.Reply.{Did};
ghost use Rattle.gv_strings.specs.Reading as spec;

use crate::answers::answer;
use crate::throwing::throw_no_number;
use gv_base::Value;
use gv_chars::{char_count, compared, integer_in};
use gv_heap::Heap;
use gv_rows::{Done, integer_of};
use gv_search::{count_places, first_place, last_place};
use std::alloc::Global;

/// How many characters there are.
pub(crate) fn size(heap: &Heap, text: &str) -> Done
    ensures { Did heap.now (spec.size_reply heap.now text.now) result heap.now }
{
    answer(heap, integer_of(char_count(text)))
}

/// Whether there is none.
pub(crate) fn is_empty(heap: &Heap, text: &str) -> Done
    ensures { Did heap.now (spec.empty_reply heap.now text.now) result heap.now }
{
    answer(heap, Value::Bool(text.is_empty()))
}

/// Whether a part stands in it.
pub(crate) fn contains(heap: &Heap, text: &str, part: &str) -> Done
    ensures { Did heap.now (spec.contains_reply heap.now text.now part.now) result heap.now }
{
    answer(heap, Value::Bool(gv_search::contains(text, part)))
}

/// Whether a part stands at its start.
pub(crate) fn starts(heap: &Heap, text: &str, part: &str) -> Done
    ensures { Did heap.now (spec.starts_reply heap.now text.now part.now) result heap.now }
{
    answer(heap, Value::Bool(gv_search::starts_with(text, part)))
}

/// Whether a part stands at its end.
pub(crate) fn ends(heap: &Heap, text: &str, part: &str) -> Done
    ensures { Did heap.now (spec.ends_reply heap.now text.now part.now) result heap.now }
{
    answer(heap, Value::Bool(gv_search::ends_with(text, part)))
}

/// The first place of a part, or -1.
pub(crate) fn index(heap: &Heap, text: &str, part: &str) -> Done
    ensures { Did heap.now (spec.index_reply heap.now text.now part.now) result heap.now }
{
    answer(heap, place_value(first_place(text, part)))
}

/// The last place of a part, or -1.
pub(crate) fn last_index(heap: &Heap, text: &str, part: &str) -> Done
    ensures { Did heap.now (spec.last_index_reply heap.now text.now part.now) result heap.now }
{
    answer(heap, place_value(last_place(text, part)))
}

fn place_value(place: Option<usize>) -> Value
    ensures { result ≡ spec.place_value place }
{
    match place {
        None => Value::Int(-1),
        Some(at) => integer_of(at),
    }
}

/// At how many places a part stands.
pub(crate) fn count(heap: &Heap, text: &str, part: &str) -> Done
    ensures { Did heap.now (spec.count_reply heap.now text.now part.now) result heap.now }
{
    answer(heap, integer_of(count_places(text, part)))
}

/// -1, 0 or 1, as it comes before another text, is the same or comes after it.
pub(crate) fn compare(heap: &Heap, text: &str, other: &str) -> Done
    ensures { Did heap.now (spec.compare_reply heap.now text.now other.now) result heap.now }
{
    answer(heap, Value::Int(compared(text, other)))
}

/// The Integer that it writes.
pub(crate) fn integer(alloc: Global, heap: &Heap, text: &str) -> Done
    ensures { Did heap.now (spec.integer_reply heap.now text.now) result heap.now }
{
    match small_in(text) {
        None => throw_no_number(alloc, text),
        Some(n) => answer(heap, Value::Int(n)),
    }
}

fn small_in(text: &str) -> Option<i32>
    ensures { result ≡ spec.integer_in text.now }
{
    let n = integer_in(text, -2147483648, 2147483647)?;
    Some(n as i32)
}

/// The Long that it writes.
pub(crate) fn long(alloc: Global, heap: &Heap, text: &str) -> Done
    ensures { Did heap.now (spec.long_reply heap.now text.now) result heap.now }
{
    match integer_in(text, i64::MIN, i64::MAX) {
        None => throw_no_number(alloc, text),
        Some(n) => answer(heap, Value::Long(n)),
    }
}
