//! The folds with which methods begin.

ghost use Rattle.std.specs.Prelude.{◌≡◌, [], IfOk, OnOk};
ghost use Rattle.gv_heap.specs.Heap.{map_at};
ghost use Rattle.gv_folds.specs.Rows as spec;

use crate::fold::{Fold, Keeping, Pending};
use crate::source::{Handed, Source};
use gv_base::{ObjId, OutOfMemory, Value};
use gv_code::Stack;
use gv_elements::Elements;
use gv_heap::{Entries, Heap, Object};
use std::alloc::Global;

/// The fold of a method of a list or a range, by its name; `each` where it has another one.
pub fn list_fold(
    alloc: Global,
    heap: &Heap,
    name: &str,
    list: ObjId,
    args: &[Value],
) -> Result<Fold, OutOfMemory>
    ensures { IfOk result (λ fold. fold ≡ spec.list_fold heap.now name.now list args.now) }
{
    let elements = Elements::at(alloc, heap, list)?;
    let source = match name {
        "eachWithIndex" => Source::Indexed { at: 0, elements },
        _ => Source::Plain(elements),
    };
    let keeping = keeping(alloc, name, Value::Obj(list), first_of(args));
    Ok(new_fold(closure_of(args), source, keeping))
}

/// The fold of a method of a map, by its name; `takes_two` says that its closure takes keys and values apart.
pub fn map_fold(
    alloc: Global,
    heap: &Heap,
    name: &str,
    map: ObjId,
    takes_two: bool,
    closure: Value,
) -> Result<Fold, OutOfMemory>
    ensures { IfOk result (λ fold. fold ≡ spec.map_fold heap.now name.now map takes_two closure) }
{
    let mut entries = Stack::new(alloc);
    if let Some(Object::Map(held)) = heap.get(map) {
        put_entries(held, &mut entries)?;
    }
    let keeping = keeping(alloc, name, Value::Obj(map), Value::Null);
    let source = Source::Entries { takes_two, entries };
    Ok(new_fold(closure, source, keeping))
}

/// The fold of `times` of a number.
pub fn times_fold(count: Value, closure: Value) -> Fold
    ensures { result ≡ spec.times_fold count closure }
{
    new_fold(
        closure,
        Source::Plain(below(count)),
        Keeping::Each(Value::Null),
    )
}

/// The fold of `upto`, or of `downto`, from a number to another one.
pub fn range_fold(first: Value, last: Value, down: bool, closure: Value) -> Fold
    ensures { result ≡ spec.range_fold first last down closure }
{
    let elements = if down {
        Elements::downto(first, last)
    } else {
        Elements::upto(first, last)
    };
    new_fold(closure, Source::Plain(elements), Keeping::Each(Value::Null))
}

/// The numbers below one, from 0 on.
fn below(count: Value) -> Elements
    ensures { result ≡ spec.below count }
{
    match count {
        Value::Int(n) if n > 0 => Elements::upto(Value::Int(0), Value::Int(n - 1)),
        Value::Long(n) if n > 0 => Elements::upto(Value::Long(0), Value::Long(n - 1)),
        _ => Elements::upto(Value::Int(0), Value::Int(-1)),
    }
}

/// What a method keeps, by its name; `each` answers its receiver.
fn keeping(alloc: Global, name: &str, receiver: Value, first: Value) -> Keeping
    ensures { result ≡ spec.keeping name.now receiver first }
{
    match name {
        "collect" => Keeping::Collected(Stack::new(alloc)),
        "find" => Keeping::Found,
        "findAll" => Keeping::FoundAll(Stack::new(alloc)),
        "any" => Keeping::Any,
        "every" => Keeping::Every,
        "inject" => Keeping::Injected(first),
        "count" => Keeping::Counted(0),
        _ => Keeping::Each(receiver),
    }
}

fn new_fold(closure: Value, source: Source, keeping: Keeping) -> Fold
    ensures { result ≡ spec.new_fold closure source keeping }
{
    Fold {
        closure,
        source,
        keeping,
        handed: Handed::Nothing,
        pending: Pending::Answer,
    }
}

/// Puts a map's entries on a stack, the first one on top.
fn put_entries(held: &Entries, entries: &mut Stack<(Value, Value)>) -> Result<(), OutOfMemory>
    requires { entries.old ≡ [] }
    ensures { OnOk result (entries.new ≡ spec.shown_entries held.now) }
{
    let mut at = held.len();
    while at > 0 {
        at -= 1;
        let (_, slot) = held.at(at);
        entries.push((slot.shown, slot.value))?;
    }
    Ok(())
}

fn first_of(args: &[Value]) -> Value
    ensures { result ≡ spec.first_of args.now }
{
    match args {
        [first, ..] => *first,
        [] => Value::Null,
    }
}

/// The closure is the last argument.
fn closure_of(args: &[Value]) -> Value
    ensures { result ≡ spec.closure_of args.now }
{
    match args {
        [_, closure, ..] => *closure,
        [closure] => *closure,
        [] => Value::Null,
    }
}
