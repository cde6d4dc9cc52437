//! Elements that are still to come.

ghost use Rattle.std.specs.Prelude.{◌≡◌, [], ◌∷◌, false, true, map, FitsSigned, IfOk, MatchOption, OnOk};
ghost use Rattle.std.specs.Int.{w32};
ghost use Rattle.gv_base.specs.declared.value.Value.TheVariants.{Int, Long};
ghost use Rattle.gv_elements.specs.Elements as spec;
ghost use Rattle.gv_rows.specs.Values.{elements_of, number, sequence_at};

use gv_base::{ObjId, OutOfMemory, Value};
use gv_code::Stack;
use gv_heap::{Heap, Object, Range};
use std::alloc::Global;
use std::marker::Model;

/// Where the elements come from.
#[derive(Debug, Drop)]
pub enum Source {
    /// The elements of a list, as they were at the start.
    Held(Stack<Value>),
    /// Integers up to a last one, or down to it; no next one behind the last.
    Ints {
        next: Option<i32>,
        last: i32,
        down: bool,
    },
    /// Longs likewise.
    Longs {
        next: Option<i64>,
        last: i64,
        down: bool,
    },
}

/// Elements, in order. Contracts see the list of those that are still to come.
#[derive(Debug, Drop)]
pub struct Elements {
    source: Source,
}

impl Model for Elements {
    ghost use Rattle.std.specs.Prelude.{List};
    ghost use Rattle.gv_base.specs.declared.value.Value.{Value as AnyValue};
    ghost use Rattle.gv_elements.specs.Elements.{elements_from};

    ghost Value = { List AnyValue };

    ghost view = { λ e. elements_from e.source };
}

impl Elements {
    /// Those on a stack, the top one first.
    pub fn held(values: Stack<Value>) -> Elements
        ensures { result ≡ values }
    {
        Elements {
            source: Source::Held(values),
        }
    }

    /// Those of a list as they are now, or those of a range; none where it is another object, or none.
    pub fn at(alloc: Global, heap: &Heap, id: ObjId) -> Result<Elements, OutOfMemory>
        ensures { IfOk result (λ elements. elements ≡ sequence_at heap.now id) }
    {
        match heap.get(id) {
            Some(Object::Range(range)) => Ok(of_range(range)),
            Some(Object::List(elements)) => {
                let mut values = Stack::new(alloc);
                put_all(elements.as_slice(), &mut values)?;
                Ok(Elements::held(values))
            }
            _ => Ok(Elements::held(Stack::new(alloc))),
        }
    }

    /// The numbers from one up to another; none where that is smaller. Longs where one of the two is a Long.
    pub fn upto(first: Value, last: Value) -> Elements
        ensures { result ≡ spec.values_between first last false }
    {
        between(first, last, false)
    }

    /// The numbers from one down to another; none where that is greater.
    pub fn downto(first: Value, last: Value) -> Elements
        ensures { result ≡ spec.values_between first last true }
    {
        between(first, last, true)
    }

    /// The first element, and those behind it.
    pub fn next(self) -> Option<(Value, Elements)>
        ensures { MatchOption result (self ≡ []) (λ taken. self ≡ taken.0 ∷ taken.1) }
    {
        match self.source {
            Source::Held(values) => next_held(values),
            Source::Ints { next, last, down } => next_int(next?, last, down),
            Source::Longs { next, last, down } => next_long(next?, last, down),
        }
    }
}

fn next_held(values: Stack<Value>) -> Option<(Value, Elements)>
    ensures { MatchOption result (values ≡ []) (λ taken. values ≡ taken.0 ∷ taken.1) }
{
    let mut values = values;
    let value = values.pop()?;
    Some((value, Elements::held(values)))
}

#[tactic(auto, using(crate::proofs::Numbers::between_up, crate::proofs::Numbers::between_down))]
fn next_int(next: i32, last: i32, down: bool) -> Option<(Value, Elements)>
    ensures { MatchOption result (map Int (spec.between next last down) ≡ []) (λ taken. map Int (spec.between next last down) ≡ taken.0 ∷ taken.1) }
{
    if next == last {
        Some((Value::Int(next), ints(None, last, down)))
    } else if down && next > last {
        Some((Value::Int(next), ints(Some(next - 1), last, down)))
    } else if !down && next < last {
        Some((Value::Int(next), ints(Some(next + 1), last, down)))
    } else {
        None
    }
}

#[tactic(auto, using(crate::proofs::Numbers::between_up, crate::proofs::Numbers::between_down))]
fn next_long(next: i64, last: i64, down: bool) -> Option<(Value, Elements)>
    ensures { MatchOption result (map Long (spec.between next last down) ≡ []) (λ taken. map Long (spec.between next last down) ≡ taken.0 ∷ taken.1) }
{
    if next == last {
        Some((Value::Long(next), longs(None, last, down)))
    } else if down && next > last {
        Some((Value::Long(next), longs(Some(next - 1), last, down)))
    } else if !down && next < last {
        Some((Value::Long(next), longs(Some(next + 1), last, down)))
    } else {
        None
    }
}

fn between(first: Value, last: Value, down: bool) -> Elements
    ensures { result ≡ spec.values_between first last down }
{
    match (first, last) {
        (Value::Int(first), Value::Int(last)) => ints(Some(first), last, down),
        (Value::Int(first), Value::Long(last)) => longs(Some(first.into()), last, down),
        (Value::Long(first), Value::Int(last)) => longs(Some(first), last.into(), down),
        (Value::Long(first), Value::Long(last)) => longs(Some(first), last, down),
        _ => ints(None, 0, false),
    }
}

#[tactic(auto, using(crate::proofs::Numbers::range_closed, crate::proofs::Numbers::range_open_up, crate::proofs::Numbers::range_open_down))]
fn of_range(range: &Range) -> Elements
    ensures { result ≡ elements_of range.now }
{
    let (first, last) = range.ends();
    let down = last < first;
    if !range.open_end() {
        numbers(range.long(), first, last, down)
    } else if first == last {
        ints(None, 0, false)
    } else if down {
        numbers(range.long(), first, last + 1, down)
    } else {
        numbers(range.long(), first, last - 1, down)
    }
}

fn numbers(long: bool, first: i64, last: i64, down: bool) -> Elements
    requires first { long ≡ false → FitsSigned w32 first }
    requires last { long ≡ false → FitsSigned w32 last }
    ensures { result ≡ map (number long) (spec.between first last down) }
{
    if long {
        longs(Some(first), last, down)
    } else {
        ints(Some(first as i32), last as i32, down)
    }
}

fn ints(next: Option<i32>, last: i32, down: bool) -> Elements
    ensures { result ≡ map Int (spec.from next last down) }
{
    Elements {
        source: Source::Ints { next, last, down },
    }
}

fn longs(next: Option<i64>, last: i64, down: bool) -> Elements
    ensures { result ≡ map Long (spec.from next last down) }
{
    Elements {
        source: Source::Longs { next, last, down },
    }
}

/// Puts values on a stack, the first one on top.
fn put_all(elements: &[Value], values: &mut Stack<Value>) -> Result<(), OutOfMemory>
    requires { values.old ≡ [] }
    ensures { OnOk result (values.new ≡ elements.now) }
{
    let mut at = elements.len();
    while at > 0 {
        at -= 1;
        values.push(elements[at])?;
    }
    Ok(())
}
