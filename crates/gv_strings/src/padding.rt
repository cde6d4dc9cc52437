ghost use Rattle.std.specs.Prelude.{◌≡◌, ◌<◌, length, MatchResult, string_bytes};
ghost use Rattle.std.specs.Str.{chars};
ghost use Rattle.gv_chars.specs.Chars as char;
ghost use Rattle.gv_rows.specs.Reply.{Did};
ghost use Rattle.gv_rows.specs.Reply as reply;
ghost use Rattle.gv_strings.specs.Making as spec;
ghost use Rattle.gv_strings.specs.Texts as texts;

use crate::answers::{answer, is_too_dear};
use crate::texts::{text_at, text_in};
use crate::throwing::throw_empty_padding;
use gv_base::{ObjId, Value};
use gv_chars::{padded_left, padded_right};
use gv_heap::Heap;
use gv_rows::{Done, natural, new_text};
use std::alloc::Global;

/// The text with blanks before it, up to a size.
pub(crate) fn pad_left(alloc: Global, heap: &mut Heap, string: ObjId, n: Option<i64>) -> Done
    ensures { Did heap.old (spec.left_reply heap.old (texts.text_at heap.old string) n spec.blank) result heap.new }
{
    match left(alloc, heap, text_at(heap, string), n, " ") {
        Ok(text) => new_text(heap, text.as_str()),
        Err(done) => done,
    }
}

/// The text with another before it, repeated and cut, up to a size.
pub(crate) fn pad_left_with(
    alloc: Global,
    heap: &mut Heap,
    string: ObjId,
    n: Option<i64>,
    unit: Value,
) -> Done
    ensures { Did heap.old (spec.left_reply heap.old (texts.text_at heap.old string) n (texts.text_in heap.old unit)) result heap.new }
{
    match left(alloc, heap, text_at(heap, string), n, text_in(heap, unit)) {
        Ok(text) => new_text(heap, text.as_str()),
        Err(done) => done,
    }
}

/// The text with blanks behind it, up to a size.
pub(crate) fn pad_right(alloc: Global, heap: &mut Heap, string: ObjId, n: Option<i64>) -> Done
    ensures { Did heap.old (spec.right_reply heap.old (texts.text_at heap.old string) n spec.blank) result heap.new }
{
    match right(alloc, heap, text_at(heap, string), n, " ") {
        Ok(text) => new_text(heap, text.as_str()),
        Err(done) => done,
    }
}

/// The text with another behind it, repeated and cut, up to a size.
pub(crate) fn pad_right_with(
    alloc: Global,
    heap: &mut Heap,
    string: ObjId,
    n: Option<i64>,
    unit: Value,
) -> Done
    ensures { Did heap.old (spec.right_reply heap.old (texts.text_at heap.old string) n (texts.text_in heap.old unit)) result heap.new }
{
    match right(alloc, heap, text_at(heap, string), n, text_in(heap, unit)) {
        Ok(text) => new_text(heap, text.as_str()),
        Err(done) => done,
    }
}

/// The text for a new String, or how the call ends otherwise.
fn left(alloc: Global, heap: &Heap, text: &str, n: Option<i64>, unit: &str) -> Result<String, Done>
    ensures { MatchResult result
        (λ made. spec.left_reply heap.now text.now n unit.now ≡ reply.new_text heap.now (string_bytes made))
        (λ done. Did heap.now (spec.left_reply heap.now text.now n unit.now) done heap.now) }
{
    match n {
        None => Err(answer(heap, Value::Null)),
        Some(n) => left_by(alloc, heap, text, size_of(n), unit),
    }
}

fn left_by(alloc: Global, heap: &Heap, text: &str, size: usize, unit: &str) -> Result<String, Done>
    ensures { MatchResult result
        (λ made. spec.left_by heap.now text.now size unit.now ≡ reply.new_text heap.now (string_bytes made))
        (λ done. Did heap.now (spec.left_by heap.now text.now size unit.now) done heap.now) }
{
    if unit.is_empty() {
        Err(throw_empty_padding(alloc))
    } else {
        left_filled(alloc, heap, text, size, unit)
    }
}

#[tactic(auto, using(crate::proofs::Sizes::left_price))]
fn left_filled(
    alloc: Global,
    heap: &Heap,
    text: &str,
    size: usize,
    unit: &str,
) -> Result<String, Done>
    requires { 0 < length unit.now }
    ensures { MatchResult result
        (λ made. spec.new_chars heap.now (char.padded_left size (chars unit.now) (chars text.now)) ≡ reply.new_text heap.now (string_bytes made))
        (λ done. Did heap.now (spec.new_chars heap.now (char.padded_left size (chars unit.now) (chars text.now))) done heap.now) }
{
    if is_too_dear(heap, size) {
        return Err(Done::CellsSpent);
    }
    match padded_left(alloc, text, size, unit) {
        Ok(made) => Ok(made),
        Err(_) => Err(Done::OutOfMemory),
    }
}

/// The text for a new String, or how the call ends otherwise.
fn right(alloc: Global, heap: &Heap, text: &str, n: Option<i64>, unit: &str) -> Result<String, Done>
    ensures { MatchResult result
        (λ made. spec.right_reply heap.now text.now n unit.now ≡ reply.new_text heap.now (string_bytes made))
        (λ done. Did heap.now (spec.right_reply heap.now text.now n unit.now) done heap.now) }
{
    match n {
        None => Err(answer(heap, Value::Null)),
        Some(n) => right_by(alloc, heap, text, size_of(n), unit),
    }
}

fn right_by(alloc: Global, heap: &Heap, text: &str, size: usize, unit: &str) -> Result<String, Done>
    ensures { MatchResult result
        (λ made. spec.right_by heap.now text.now size unit.now ≡ reply.new_text heap.now (string_bytes made))
        (λ done. Did heap.now (spec.right_by heap.now text.now size unit.now) done heap.now) }
{
    if unit.is_empty() {
        Err(throw_empty_padding(alloc))
    } else {
        right_filled(alloc, heap, text, size, unit)
    }
}

#[tactic(auto, using(crate::proofs::Sizes::right_price))]
fn right_filled(
    alloc: Global,
    heap: &Heap,
    text: &str,
    size: usize,
    unit: &str,
) -> Result<String, Done>
    requires { 0 < length unit.now }
    ensures { MatchResult result
        (λ made. spec.new_chars heap.now (char.padded_right size (chars unit.now) (chars text.now)) ≡ reply.new_text heap.now (string_bytes made))
        (λ done. Did heap.now (spec.new_chars heap.now (char.padded_right size (chars unit.now) (chars text.now))) done heap.now) }
{
    if is_too_dear(heap, size) {
        return Err(Done::CellsSpent);
    }
    match padded_right(alloc, text, size, unit) {
        Ok(made) => Ok(made),
        Err(_) => Err(Done::OutOfMemory),
    }
}

/// The size that a number means.
fn size_of(n: i64) -> usize
    ensures { result ≡ spec.size_of n }
{
    natural(n).unwrap_or(0)
}
