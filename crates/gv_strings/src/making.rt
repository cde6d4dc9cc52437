ghost use Rattle.std.specs.Prelude.{◌≡◌};
ghost use Rattle.gv_rows.specs.Reply.{Did};
ghost use Rattle.std.specs.Str.{chars};
ghost use Rattle.gv_chars.specs.Chars as char;
ghost use Rattle.gv_strings.specs.Making as spec;
ghost use Rattle.gv_strings.specs.Texts as texts;

use crate::answers::{answer, answer_text, is_too_dear};
use crate::texts::{text_at, text_in};
use crate::throwing::throw_negative;
use gv_base::{ObjId, Value};
use gv_chars::{repeated, reversed, trimmed};
use gv_heap::Heap;
use gv_rows::{Done, natural};
use gv_search::replaced;
use std::alloc::Global;

/// The text without the characters up to U+0020 at both ends.
pub(crate) fn trim(alloc: Global, heap: &mut Heap, string: ObjId) -> Done
    ensures { Did heap.old (spec.trim_reply heap.old (texts.text_at heap.old string)) result heap.new }
{
    let made = String::from_str(alloc, trimmed(text_at(heap, string)));
    answer_text(heap, made)
}

/// The characters backwards.
pub(crate) fn reverse(alloc: Global, heap: &mut Heap, string: ObjId) -> Done
    ensures { Did heap.old (spec.reverse_reply heap.old (texts.text_at heap.old string)) result heap.new }
{
    let made = reversed(alloc, text_at(heap, string));
    answer_text(heap, made)
}

/// The text with another for each part that stands in it.
pub(crate) fn replace(
    alloc: Global,
    heap: &mut Heap,
    string: ObjId,
    part: Value,
    other: Value,
) -> Done
    ensures { Did heap.old (spec.replace_reply heap.old (texts.text_at heap.old string) (texts.text_in heap.old part) (texts.text_in heap.old other)) result heap.new }
{
    let made = replaced(
        alloc,
        text_at(heap, string),
        text_in(heap, part),
        text_in(heap, other),
    );
    answer_text(heap, made)
}

/// The text so many times.
pub(crate) fn multiply(alloc: Global, heap: &mut Heap, string: ObjId, n: Option<i64>) -> Done
    ensures { Did heap.old (spec.multiply_reply heap.old (texts.text_at heap.old string) n) result heap.new }
{
    match n {
        None => answer(heap, Value::Null),
        Some(n) => multiply_by(alloc, heap, string, n, natural(n)),
    }
}

fn multiply_by(alloc: Global, heap: &mut Heap, string: ObjId, n: i64, count: Option<usize>) -> Done
    ensures { Did heap.old (spec.multiply_by heap.old (texts.text_at heap.old string) n count) result heap.new }
{
    match count {
        None => throw_negative(alloc, n),
        Some(count) => new_repeated(alloc, heap, string, count),
    }
}

#[tactic(auto, using(crate::proofs::Sizes::repeated_bytes))]
fn new_repeated(alloc: Global, heap: &mut Heap, string: ObjId, count: usize) -> Done
    ensures { Did heap.old (spec.new_chars heap.old (char.repeated count (chars (texts.text_at heap.old string)))) result heap.new }
{
    let text = text_at(heap, string);
    let Some(size) = count.checked_mul(text.len()) else {
        return Done::OutOfMemory;
    };
    if is_too_dear(heap, size) {
        return Done::CellsSpent;
    }
    let made = repeated(alloc, text, count);
    answer_text(heap, made)
}
