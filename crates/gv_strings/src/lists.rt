ghost use Rattle.std.specs.Prelude.{◌≡◌, ◌≤◌, length, map, string_bytes, IfOk, IfSome, MatchResult, OnOk};
ghost use Rattle.gv_heap.specs.Heap.{pay, with_new};
ghost use Rattle.gv_heap.specs.Prices as prices;
ghost use Rattle.gv_heap.specs.declared.object.Object.TheVariants.{Text as TextObject};
ghost use Rattle.gv_rows.specs.Reply.{Did};
ghost use Rattle.gv_rows.specs.declared.done.Done.TheVariants as done;
ghost use Rattle.gv_strings.specs.Lists as spec;
ghost use Rattle.gv_strings.specs.Texts as texts;

use crate::texts::{text_at, text_in};
use gv_base::{ObjId, OutOfMemory, Value};
use gv_chars::{characters, pieces};
use gv_heap::Heap;
use gv_rows::{Done, new_list};
use std::alloc::Global;

/// The pieces between blanks.
pub(crate) fn tokenize(alloc: Global, heap: &mut Heap, string: ObjId) -> Done
    ensures { Did heap.old (spec.tokens_reply heap.old (texts.text_at heap.old string) spec.blanks) result heap.new }
{
    let made = pieces(alloc, text_at(heap, string), " \t\n\r\u{c}");
    answer_texts(alloc, heap, made)
}

/// The pieces between the characters of a text.
pub(crate) fn tokenize_at(alloc: Global, heap: &mut Heap, string: ObjId, separators: Value) -> Done
    ensures { Did heap.old (spec.tokens_reply heap.old (texts.text_at heap.old string) (texts.text_in heap.old separators)) result heap.new }
{
    let made = pieces(alloc, text_at(heap, string), text_in(heap, separators));
    answer_texts(alloc, heap, made)
}

/// The characters, each alone.
pub(crate) fn to_list(alloc: Global, heap: &mut Heap, string: ObjId) -> Done
    ensures { Did heap.old (spec.chars_reply heap.old (texts.text_at heap.old string)) result heap.new }
{
    let made = characters(alloc, text_at(heap, string));
    answer_texts(alloc, heap, made)
}

/// Answers a new List of a new String for each text, for their price.
fn answer_texts(alloc: Global, heap: &mut Heap, made: Result<Vec<String>, OutOfMemory>) -> Done
    ensures { MatchResult made
        (λ texts. Did heap.old (spec.texts_reply heap.old (map string_bytes texts.items)) result heap.new)
        (λ _. result ≡ done.OutOfMemory) }
{
    match made {
        Ok(texts) => new_texts(alloc, heap, texts.as_slice()),
        Err(_) => Done::OutOfMemory,
    }
}

/// The same of texts that are there.
fn new_texts(alloc: Global, heap: &mut Heap, texts: &[String]) -> Done
    ensures { Did heap.old (spec.texts_reply heap.old (map string_bytes texts.now)) result heap.new }
{
    let Some(price) = list_price(texts) else {
        return Done::OutOfMemory;
    };
    if heap.cells_left() < price {
        return Done::CellsSpent;
    }
    make_list(alloc, heap, texts)
}

/// The same where the cells pay it.
fn make_list(alloc: Global, heap: &mut Heap, texts: &[String]) -> Done
    requires { spec.list_price (map string_bytes texts.now) ≤ heap.old.cells }
    ensures { Did heap.old (spec.texts_reply heap.old (map string_bytes texts.now)) result heap.new }
{
    match make_texts(alloc, heap, texts) {
        Ok(strings) => new_list(heap, strings),
        Err(_) => Done::OutOfMemory,
    }
}

/// What the Strings and their List cost; None where it can't be counted.
fn list_price(texts: &[String]) -> Option<u64>
    ensures { IfSome result (λ price. price ≡ spec.list_price (map string_bytes texts.now)) }
{
    let price = texts_price(texts)?;
    price.checked_add(1 + texts.len() as u64)
}

/// What the Strings cost.
fn texts_price(texts: &[String]) -> Option<u64>
    ensures { IfSome result (λ price. price ≡ spec.texts_price (map string_bytes texts.now)) }
{
    let mut price: u64 = 0;
    for text in texts {
        price = price.checked_add(text_price(text.as_str()))?;
    }
    Some(price)
}

fn text_price(text: &str) -> u64
    ensures { result ≡ prices.text_price text.now }
{
    1 + text.len().div_ceil(8) as u64
}

/// Makes a String of each text, for as long as they can be paid, and gives their numbers.
#[tactic(auto, using(crate::proofs::Made::making))]
fn make_texts(alloc: Global, heap: &mut Heap, texts: &[String]) -> Result<Vec<Value>, OutOfMemory>
    ensures strings { IfOk result (λ strings. strings.items ≡ spec.numbered (length heap.old.objects) (map string_bytes texts.now)) }
    ensures heap { OnOk result (heap.new ≡ spec.paid_texts heap.old (map string_bytes texts.now)) }
{
    let mut strings = Vec::with_capacity(alloc, texts.len())?;
    for text in texts {
        strings.push(make_text(heap, text.as_str())?)?;
    }
    Ok(strings)
}

/// Makes a String.
fn make_text(heap: &mut Heap, text: &str) -> Result<Value, OutOfMemory>
    ensures string { IfOk result (λ string. string ≡ Value.Obj (length heap.old.objects)) }
    ensures heap { OnOk result (heap.new ≡ pay (with_new heap.old (TextObject text.now)) (prices.text_price text.now)) }
{
    match heap.make_text(text) {
        Ok(id) => Ok(Value::Obj(id)),
        Err(_) => Err(OutOfMemory),
    }
}
