ghost use Rattle.std.specs.Prelude.{◌≡◌, ◌<◌, encode_utf8_all, length, map, option_copied, slice_get, string_bytes, IfOk, MatchResult, None, Some};
ghost use Rattle.std.specs.Str.{chars};
ghost use Rattle.gv_chars.specs.Chars as char;
ghost use Rattle.gv_heap.specs.Heap.{object_at};
ghost use Rattle.gv_rows.specs.Reply.{Did};
ghost use Rattle.gv_rows.specs.Reply as reply;
ghost use Rattle.gv_rows.specs.Values.{number_in, walked};
ghost use Rattle.gv_strings.specs.Parts as spec;
ghost use Rattle.gv_strings.specs.Texts as texts;

use crate::answers::{answer, place_from};
use crate::faults::Fault;
use crate::texts::text_at;
use crate::throwing::{throw_bad_places, throw_outside};
use gv_base::{ObjId, OutOfMemory, Value};
use gv_chars::{char_count, picked};
use gv_heap::{Heap, Object, Range};
use gv_rows::{Done, Walk, natural, new_text, number_in};
use std::alloc::Global;

/// The characters at several places: at the items of a List, or where a Range walks.
pub(crate) fn get_each(alloc: Global, heap: &mut Heap, string: ObjId, places: ObjId) -> Done
    ensures { Did heap.old (spec.get_by heap.old (texts.text_at heap.old string) (object_at heap.old places)) result heap.new }
{
    match read(alloc, heap, text_at(heap, string), heap.get(places)) {
        Ok(text) => new_text(heap, text.as_str()),
        Err(done) => done,
    }
}

/// The text for a new String, or how the call ends otherwise.
fn read(alloc: Global, heap: &Heap, text: &str, places: Option<&Object>) -> Result<String, Done>
    ensures { MatchResult result
        (λ made. spec.get_by heap.now text.now (option_copied places.entry) ≡ reply.new_text heap.now (string_bytes made))
        (λ done. Did heap.now (spec.get_by heap.now text.now (option_copied places.entry)) done heap.now) }
{
    match places {
        Some(Object::List(places)) => read_items(alloc, heap, text, places.as_slice()),
        Some(Object::Range(range)) => read_range(alloc, heap, text, range),
        _ => Err(answer(heap, Value::Null)),
    }
}

/// The characters at the items of a List.
fn read_items(alloc: Global, heap: &Heap, text: &str, items: &[Value]) -> Result<String, Done>
    ensures { MatchResult result
        (λ made. spec.items_reply heap.now text.now items.now ≡ reply.new_text heap.now (string_bytes made))
        (λ done. Did heap.now (spec.items_reply heap.now text.now items.now) done heap.now) }
{
    match first_fault(char_count(text), items) {
        Some(fault) => Err(throw_fault(alloc, heap, fault)),
        None => match items_text(alloc, text, items) {
            Ok(made) => Ok(made),
            Err(_) => Err(Done::OutOfMemory),
        },
    }
}

/// The same where each can be read.
fn items_text(alloc: Global, text: &str, items: &[Value]) -> Result<String, OutOfMemory>
    requires { spec.first_fault (length (chars text.now)) items.now ≡ None }
    ensures { IfOk result (λ made. string_bytes made ≡ encode_utf8_all (char.picked (map (spec.item_place (length (chars text.now))) items.now) (chars text.now))) }
{
    let size = char_count(text);
    let places = item_places(alloc, size, items)?;
    picked(alloc, text, places.as_slice())
}

/// What is thrown for a fault.
fn throw_fault(alloc: Global, _heap: &Heap, fault: Fault) -> Done
    ensures { Did _heap.now (spec.fault_reply fault) result _heap.now }
{
    match fault {
        Fault::NoNumber => throw_bad_places(alloc),
        Fault::Outside(given) => throw_outside(alloc, given),
    }
}

/// The first item that can't be read.
fn first_fault(size: usize, items: &[Value]) -> Option<Fault>
    ensures { result ≡ spec.first_fault size items.now }
{
    for item in items {
        if let Some(fault) = item_fault(size, *item) {
            return Some(fault);
        }
    }
    None
}

fn item_fault(size: usize, item: Value) -> Option<Fault>
    ensures { result ≡ spec.item_fault size (number_in item) }
{
    match number_in(item) {
        None => Some(Fault::NoNumber),
        Some(n) => outside(n, inside(size, place_from(size, n))),
    }
}

/// A place that isn't in the text.
fn outside(given: i64, place: Option<usize>) -> Option<Fault>
    ensures { result ≡ spec.outside given place }
{
    match place {
        None => Some(Fault::Outside(given)),
        Some(_) => None,
    }
}

/// The place, where it is in a text of so many characters.
fn inside(size: usize, place: Option<usize>) -> Option<usize>
    ensures { result ≡ spec.inside size place }
{
    match place {
        Some(at) if at < size => Some(at),
        _ => None,
    }
}

/// The places that items mean which can be read.
fn item_places(alloc: Global, size: usize, items: &[Value]) -> Result<Vec<usize>, OutOfMemory>
    ensures { IfOk result (λ places. places.items ≡ map (spec.item_place size) items.now) }
{
    let mut places = Vec::with_capacity(alloc, items.len())?;
    for item in items {
        places.push(item_place(size, *item))?;
    }
    Ok(places)
}

fn item_place(size: usize, item: Value) -> usize
    ensures { result ≡ spec.item_place size item }
{
    let n = number_in(item).unwrap_or(0);
    place_from(size, n).unwrap_or(0)
}

/// The characters where a Range walks.
fn read_range(alloc: Global, heap: &Heap, text: &str, range: &Range) -> Result<String, Done>
    ensures { MatchResult result
        (λ made. spec.walk_reply heap.now text.now (walked (length (chars text.now)) range.now.first range.now.last range.now.open_end) ≡ reply.new_text heap.now (string_bytes made))
        (λ done. Did heap.now (spec.walk_reply heap.now text.now (walked (length (chars text.now)) range.now.first range.now.last range.now.open_end)) done heap.now) }
{
    let (first, last) = range.ends();
    let size = char_count(text);
    if i64::try_from(size).is_err() {
        return Err(Done::OutOfMemory);
    }
    let walk = Walk::new(size, first, last, range.open_end());
    read_walk(alloc, heap, text, &walk)
}

fn read_walk(alloc: Global, heap: &Heap, text: &str, walk: &Walk) -> Result<String, Done>
    ensures { MatchResult result
        (λ made. spec.walk_reply heap.now text.now walk.now ≡ reply.new_text heap.now (string_bytes made))
        (λ done. Did heap.now (spec.walk_reply heap.now text.now walk.now) done heap.now) }
{
    match walk_fault(char_count(text), walk) {
        Some(fault) => Err(throw_fault(alloc, heap, fault)),
        None => match walk_text(alloc, text, walk) {
            Ok(made) => Ok(made),
            Err(_) => Err(Done::OutOfMemory),
        },
    }
}

/// The same where each place can be read.
fn walk_text(alloc: Global, text: &str, walk: &Walk) -> Result<String, OutOfMemory>
    requires { spec.walk_fault (length (chars text.now)) walk.now ≡ None }
    ensures { IfOk result (λ made. string_bytes made ≡ encode_utf8_all (char.picked (map spec.walk_place walk.now) (chars text.now))) }
{
    let places = walk_places(alloc, walk)?;
    picked(alloc, text, places.as_slice())
}

/// The first place of a walk that can't be read.
#[tactic(auto, using(crate::proofs::Steps::drop_at))]
fn walk_fault(size: usize, walk: &Walk) -> Option<Fault>
    ensures { result ≡ spec.walk_fault size walk.now }
{
    for at in 0..walk.len() {
        let place = walk.get(at);
        if let Some(fault) = outside(place, inside(size, natural(place))) {
            return Some(fault);
        }
    }
    None
}

/// The places of a walk that can be read.
#[tactic(auto, using(crate::proofs::Steps::take_at, gv_rows::proofs::Numbers::length_mapped))]
fn walk_places(alloc: Global, walk: &Walk) -> Result<Vec<usize>, OutOfMemory>
    ensures { IfOk result (λ places. places.items ≡ map spec.walk_place walk.now) }
{
    let mut places = Vec::with_capacity(alloc, walk.len() as usize)?;
    for at in 0..walk.len() {
        places.push(walk_place(walk, at))?;
    }
    Ok(places)
}

#[tactic(auto, using(gv_rows::proofs::Numbers::get_mapped))]
fn walk_place(walk: &Walk, at: u64) -> usize
    requires { at < length walk.now }
    ensures { slice_get (map spec.walk_place walk.now) at ≡ Some result }
{
    let place = walk.get(at);
    natural(place).unwrap_or(0)
}
