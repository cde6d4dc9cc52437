ghost use Rattle.std.specs.Prelude.{◌≡◌, length};
ghost use Rattle.std.specs.Str.{chars};
ghost use Rattle.gv_chars.specs.Chars as char;
ghost use Rattle.gv_rows.specs.Reply.{Did};
ghost use Rattle.gv_strings.specs.Making.{new_chars};
ghost use Rattle.gv_strings.specs.Parts as spec;
ghost use Rattle.gv_strings.specs.Texts as texts;

use crate::answers::{answer, answer_text, place_from};
use crate::picking::get_each;
use crate::texts::text_at;
use crate::throwing::throw_outside;
use gv_base::{ObjId, Value};
use gv_chars::{char_at, char_count, part, single};
use gv_heap::Heap;
use gv_rows::{Done, natural};
use std::alloc::Global;

/// The characters from a place on.
pub(crate) fn rest(alloc: Global, heap: &mut Heap, string: ObjId, i: Option<i64>) -> Done
    ensures { Did heap.old (spec.rest_reply heap.old (texts.text_at heap.old string) i) result heap.new }
{
    match i {
        None => answer(heap, Value::Null),
        Some(i) => {
            let size = char_count(text_at(heap, string));
            rest_from(alloc, heap, string, i, bound(0, size, i))
        }
    }
}

fn rest_from(alloc: Global, heap: &mut Heap, string: ObjId, i: i64, from: Option<usize>) -> Done
    ensures { Did heap.old (spec.rest_from heap.old (texts.text_at heap.old string) i from) result heap.new }
{
    match from {
        None => throw_outside(alloc, i),
        Some(from) => {
            let size = char_count(text_at(heap, string));
            new_part(alloc, heap, string, from, size)
        }
    }
}

/// The characters from a place on, up to before another.
pub(crate) fn between(
    alloc: Global,
    heap: &mut Heap,
    string: ObjId,
    i: Option<i64>,
    j: Option<i64>,
) -> Done
    ensures { Did heap.old (spec.part_reply heap.old (texts.text_at heap.old string) i j) result heap.new }
{
    match i {
        None => answer(heap, Value::Null),
        Some(i) => match j {
            None => answer(heap, Value::Null),
            Some(j) => {
                let size = char_count(text_at(heap, string));
                part_from(alloc, heap, string, i, j, bound(0, size, i))
            }
        },
    }
}

fn part_from(
    alloc: Global,
    heap: &mut Heap,
    string: ObjId,
    i: i64,
    j: i64,
    from: Option<usize>,
) -> Done
    ensures { Did heap.old (spec.part_from heap.old (texts.text_at heap.old string) i j from) result heap.new }
{
    match from {
        None => throw_outside(alloc, i),
        Some(from) => {
            let size = char_count(text_at(heap, string));
            part_to(alloc, heap, string, from, j, bound(from, size, j))
        }
    }
}

fn part_to(
    alloc: Global,
    heap: &mut Heap,
    string: ObjId,
    from: usize,
    j: i64,
    to: Option<usize>,
) -> Done
    ensures { Did heap.old (spec.part_to heap.old (texts.text_at heap.old string) from j to) result heap.new }
{
    match to {
        None => throw_outside(alloc, j),
        Some(to) => new_part(alloc, heap, string, from, to),
    }
}

fn new_part(alloc: Global, heap: &mut Heap, string: ObjId, from: usize, to: usize) -> Done
    ensures { Did heap.old (new_chars heap.old (char.part from to (chars (texts.text_at heap.old string)))) result heap.new }
{
    let made = part(alloc, text_at(heap, string), from, to);
    answer_text(heap, made)
}

/// The place that a number is, where it is within these.
fn bound(least: usize, greatest: usize, n: i64) -> Option<usize>
    ensures { result ≡ spec.bound least greatest n }
{
    bound_at(least, greatest, natural(n)?)
}

fn bound_at(least: usize, greatest: usize, at: usize) -> Option<usize>
    ensures { result ≡ spec.bound_at least greatest at }
{
    if least <= at && at <= greatest {
        Some(at)
    } else {
        None
    }
}

/// The character at a place, or those at several.
pub(crate) fn get(alloc: Global, heap: &mut Heap, string: ObjId, place: Value) -> Done
    ensures { Did heap.old (spec.get_reply heap.old (texts.text_at heap.old string) place) result heap.new }
{
    match place {
        Value::Int(n) => get_one(alloc, heap, string, i64::from(n)),
        Value::Obj(places) => get_each(alloc, heap, string, places),
        _ => answer(heap, Value::Null),
    }
}

fn get_one(alloc: Global, heap: &mut Heap, string: ObjId, n: i64) -> Done
    ensures { Did heap.old (spec.char_reply heap.old (texts.text_at heap.old string) n) result heap.new }
{
    let found = char_from(text_at(heap, string), n);
    get_found(alloc, heap, n, found)
}

/// The character at a place, from the end where it is negative.
fn char_from(text: &str, n: i64) -> Option<char>
    ensures { result ≡ spec.char_from (chars text.now) n }
{
    char_at(text, place_from(char_count(text), n)?)
}

fn get_found(alloc: Global, heap: &mut Heap, given: i64, found: Option<char>) -> Done
    ensures { Did heap.old (spec.char_or heap.old given found) result heap.new }
{
    match found {
        None => throw_outside(alloc, given),
        Some(character) => answer_text(heap, single(alloc, character)),
    }
}
