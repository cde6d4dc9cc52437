ghost use Rattle.std.specs.Prelude.{◌≡◌, ◌+◌, ◌-ℤ◌, ◌≤◌, ◌<◌, true, false, length, take, drop, int_lt, slice_get, Some, IfOk, FitsSigned};
ghost use Rattle.std.specs.Int.{w32};
ghost use Rattle.std.specs.Int.RustNames.{unsigned_abs};
ghost use Rattle.gv_rows.specs.Sources.{stepped};
ghost use Rattle.gv_rows.specs.Values as spec;

use gv_base::{ObjId, OutOfMemory, Value};
use gv_heap::{Heap, Object, Range};
use std::alloc::Global;
use std::marker::Model;

/// Where the elements come from.
#[derive(Clone, Copy)]
pub enum Source<'a> {
    Elements(&'a [Value]),
    Range(&'a Range),
}

/// The elements of a list or of a range, in order. Those of a range are nowhere written out.
#[derive(Drop)]
pub struct Sequence<'a> {
    source: Source<'a>,
}

impl<'a> Model for Sequence<'a> {
    ghost use Rattle.std.specs.Prelude.{List};
    ghost use Rattle.gv_base.specs.declared.value.Value.{Value as AnyValue};
    ghost use Rattle.gv_rows.specs.Sources.{elements_from};

    ghost Value = { List AnyValue };

    ghost view = { λ s. elements_from s.source };
}

impl<'a> Sequence<'a> {
    /// Those of the list or range of a number; none where it is another object, or none.
    pub fn at(heap: &'a Heap, id: ObjId) -> Sequence<'a>
        ensures { result ≡ spec.sequence_at heap.now id }
    {
        let source = match heap.get(id) {
            Some(Object::List(elements)) => Source::Elements(elements.as_slice()),
            Some(Object::Range(range)) => Source::Range(range),
            _ => Source::Elements(&[]),
        };
        Sequence { source }
    }

    /// How many they are.
    pub fn len(&self) -> usize
        ensures { result ≡ length self.now }
    {
        match self.source {
            Source::Elements(elements) => elements.len(),
            Source::Range(range) => range_len(range),
        }
    }

    /// The element at a place.
    pub fn get(&self, at: usize) -> Value
        requires { at < length self.now }
        ensures { slice_get self.now at ≡ Some result }
    {
        match self.source {
            Source::Elements(elements) => element_at(elements, at),
            Source::Range(range) => range_get(range, at),
        }
    }

    /// So many of them from a place on, in a vector of their own.
    pub fn copy(&self, alloc: Global, from: usize, count: usize) -> Result<Vec<Value>, OutOfMemory>
        requires { from + count ≤ length self.now }
        ensures { IfOk result (λ items. items.items ≡ take count (drop from self.now)) }
    {
        match self.source {
            Source::Elements(elements) => {
                let (_, rest) = elements.split_at(from);
                Vec::from_slice(alloc, &rest[..count])
            }
            Source::Range(range) => range_copy(alloc, range, from, count),
        }
    }
}

/// The element of a list at a place.
fn element_at(elements: &[Value], at: usize) -> Value
    requires { at < length elements.now }
    ensures { slice_get elements.now at ≡ Some result }
{
    elements[at]
}

/// How many numbers a range has.
#[tactic(auto, using(crate::proofs::Numbers::length_range))]
fn range_len(range: &Range) -> usize
    ensures { result ≡ length (spec.elements_of range.now) }
{
    let (first, last) = range.ends();
    let steps = last.abs_diff(first) as usize;
    if range.open_end() { steps } else { steps + 1 }
}

/// The number of a range at a place.
#[tactic(auto, using(crate::proofs::Numbers::length_range, crate::proofs::Numbers::get_range))]
fn range_get(range: &Range, at: usize) -> Value
    requires { at < length (spec.elements_of range.now) }
    ensures { slice_get (spec.elements_of range.now) at ≡ Some result }
{
    let (first, last) = range.ends();
    element_of(range.long(), first, last, at)
}

/// The number that stands so many steps behind the first, as a value.
fn element_of(long: bool, first: i64, last: i64, steps: usize) -> Value
    requires steps { steps ≤ unsigned_abs (last -ℤ first) }
    requires first { long ≡ false → FitsSigned w32 first }
    requires last { long ≡ false → FitsSigned w32 last }
    ensures { result ≡ spec.number long (stepped (int_lt last first) first steps) }
{
    number(long, number_at(first, last, steps as u64))
}

/// So many numbers of a range from a place on.
#[tactic(auto, using(crate::proofs::Numbers::length_range, crate::proofs::Numbers::get_range, crate::proofs::Numbers::taken_more))]
fn range_copy(
    alloc: Global,
    range: &Range,
    from: usize,
    count: usize,
) -> Result<Vec<Value>, OutOfMemory>
    requires { from + count ≤ length (spec.elements_of range.now) }
    ensures { IfOk result (λ items. items.items ≡ take count (drop from (spec.elements_of range.now))) }
{
    let (first, last) = range.ends();
    let mut items = Vec::with_capacity(alloc, count)?;
    for steps in 0..count {
        items.push(element_of(range.long(), first, last, from + steps))?;
    }
    Ok(items)
}

/// The number that stands so many steps behind the first.
pub(crate) fn number_at(first: i64, last: i64, steps: u64) -> i64
    requires { steps ≤ unsigned_abs (last -ℤ first) }
    ensures number { result ≡ stepped (int_lt last first) first steps }
    ensures fits { FitsSigned w32 first → FitsSigned w32 last → FitsSigned w32 result }
{
    let steps = i128::from(steps);
    if last < first {
        (i128::from(first) - steps) as i64
    } else {
        (i128::from(first) + steps) as i64
    }
}

/// A number as a value.
fn number(long: bool, n: i64) -> Value
    requires { long ≡ false → FitsSigned w32 n }
    ensures { result ≡ spec.number long n }
{
    if long {
        Value::Long(n)
    } else {
        Value::Int(n as i32)
    }
}
