ghost use Rattle.std.specs.Prelude.{◌≡◌, ◌<◌, IfOk};
ghost use Rattle.gv_classes.specs.Classes as spec;

use crate::maps::takes::{is_map, takes_all};
use gv_base::{ExceptionKind, Name, Names, OutOfMemory, Place, Text, Value};
use gv_classes::{BUILT_IN, Classes, Declared, Member, MemberKind};
use gv_heap::{Heap, Items, MapKey, Object, Part};
use gv_maps::call_map;
use gv_natives::{Kind, built_in};
use gv_rows::Done;
use std::alloc::Global;
use std::test::Fail;

// The objects of each test.
/// Two Strings "k".
pub(crate) const TEXT: Value = Value::Obj(0);

pub(crate) const TEXT_AGAIN: Value = Value::Obj(1);
/// "1", "Größe" and "größe".
pub(crate) const DIGIT: Value = Value::Obj(2);

pub(crate) const LARGE: Value = Value::Obj(3);

pub(crate) const SMALL: Value = Value::Obj(4);

pub(crate) const LIST: Value = Value::Obj(5);

pub(crate) const RANGE: Value = Value::Obj(6);

pub(crate) const CLOSURE: Value = Value::Obj(7);

pub(crate) const GSTRING: Value = Value::Obj(8);

pub(crate) const ENTRY: Value = Value::Obj(9);
/// Two instances of `Plain`, which has no `equals`.
pub(crate) const PLAIN: Value = Value::Obj(10);

pub(crate) const OTHER: Value = Value::Obj(11);
/// An instance of `Same`, which declares `equals`, and one of `Under`, which is below it.
pub(crate) const SAME: Value = Value::Obj(12);

pub(crate) const UNDER: Value = Value::Obj(13);
/// Two empty Maps, and one whose key is a GString of the text "k", with 2.
pub(crate) const MAP: Value = Value::Obj(14);

pub(crate) const MORE: Value = Value::Obj(15);

pub(crate) const OF_GSTRING: Value = Value::Obj(16);
/// Those that a test makes.
pub(crate) const FIRST_NEW: Value = Value::Obj(17);

pub(crate) const SECOND_NEW: Value = Value::Obj(18);

/// What the objects take: each but the Strings a cell, and the key of the last Map one more.
const OBJECTS: u64 = 13;

/// A class, the one above it and its method.
const CLASSES: [(&str, &str, &str); 3] = [
    ("Plain", "Object", "run"),
    ("Same", "Object", "equals"),
    ("Under", "Same", "run"),
];

/// A call and what it is to answer, or what is to stand in the heap.
pub(crate) enum Step {
    Gives(&'static str, Value, &'static [Value], Value),
    Throws(&'static str, Value, &'static [Value], ExceptionKind, &'static str),
    /// The cells left don't pay it.
    Spends(&'static str, Value, &'static [Value]),
    /// No row takes these arguments.
    Misses(&'static str, Value, &'static [Value]),
    /// A Map has these entries in order: how each key is shown, and its value.
    Holds(Value, &'static [(Value, Value)]),
    /// A List has these elements.
    Lists(Value, &'static [Value]),
    Left(u64),
}

/// The place of the first step that isn't so, in a heap that has these cells left beside its objects.
pub(crate) fn first_wrong(
    alloc: Global,
    cells: u32,
    steps: &[Step],
) -> Result<Option<usize>, Fail> {
    let mut names = Names::new(alloc);
    let classes = script(alloc, &mut names)?;
    let mut heap = Heap::new(alloc, OBJECTS + u64::from(cells));
    make_all(alloc, &mut heap)?;
    Ok(first_wrong_in(alloc, &names, &classes, &mut heap, steps))
}

fn first_wrong_in(
    alloc: Global,
    names: &Names,
    classes: &Classes,
    heap: &mut Heap,
    steps: &[Step],
) -> Option<usize> {
    for (place, step) in steps.iter().enumerate() {
        if !is_so(alloc, names, classes, heap, step) {
            return Some(place);
        }
    }
    None
}

fn is_so(alloc: Global, names: &Names, classes: &Classes, heap: &mut Heap, step: &Step) -> bool {
    match step {
        Step::Gives(name, receiver, args, value) => gives(
            call(alloc, names, classes, heap, name, *receiver, args),
            *value,
        ),
        Step::Throws(name, receiver, args, kind, text) => throws(
            call(alloc, names, classes, heap, name, *receiver, args),
            *kind,
            text,
        ),
        Step::Spends(name, receiver, args) => {
            is_spent(call(alloc, names, classes, heap, name, *receiver, args))
        }
        Step::Misses(name, receiver, args) => {
            call(alloc, names, classes, heap, name, *receiver, args).is_none()
        }
        Step::Holds(map, entries) => holds(heap, *map, entries),
        Step::Lists(list, elements) => lists(heap, *list, elements),
        Step::Left(cells) => heap.cells_left() == *cells,
    }
}

/// What the row of Map of this name answers, or None where none takes these arguments.
fn call(
    alloc: Global,
    names: &Names,
    classes: &Classes,
    heap: &mut Heap,
    name: &str,
    receiver: Value,
    args: &[Value],
) -> Option<Done> {
    let Ok(arity) = u8::try_from(args.len()) else {
        return None;
    };
    let table = built_in();
    let Some(native) = table.find(name, Kind::Map, arity) else {
        return None;
    };
    let row = *table.row(native);
    let is_row = matches!(row.kind, Kind::Map) && !row.walks;
    if is_row
        && usize::from(row.arity) == args.len()
        && takes_all(heap, &row, args)
        && is_map(heap, receiver)
    {
        Some(call_map(alloc, names, classes, heap, native, receiver, args))
    } else {
        None
    }
}

fn gives(done: Option<Done>, value: Value) -> bool {
    match done {
        Some(Done::Value(given)) => given == value,
        _ => false,
    }
}

fn throws(done: Option<Done>, kind: ExceptionKind, text: &str) -> bool {
    match done {
        Some(Done::Thrown(thrown, message)) => thrown == kind && message.text() == Some(text),
        _ => false,
    }
}

fn is_spent(done: Option<Done>) -> bool {
    matches!(done, Some(Done::CellsSpent))
}

fn holds(heap: &Heap, map: Value, wanted: &[(Value, Value)]) -> bool {
    let Value::Obj(id) = map else {
        return false;
    };
    let Some(Object::Map(entries)) = heap.get(id) else {
        return false;
    };
    for place in 0..entries.len() {
        let (_, slot) = entries.at(place);
        let Some((shown, value)) = wanted.get(place) else {
            return false;
        };
        if slot.shown != *shown || slot.value != *value {
            return false;
        }
    }
    entries.len() == wanted.len()
}

fn lists(heap: &Heap, list: Value, wanted: &[Value]) -> bool {
    let Value::Obj(id) = list else {
        return false;
    };
    match heap.get(id) {
        Some(Object::List(elements)) => elements.as_slice() == wanted,
        _ => false,
    }
}

// ---- the objects

fn make_all(alloc: Global, heap: &mut Heap) -> Result<(), Fail> {
    for text in ["k", "k", "1", "Größe", "größe"] {
        heap.make_literal(text)?;
    }
    make_no_keys(alloc, heap)?;
    for class in [BUILT_IN, BUILT_IN, BUILT_IN + 1, BUILT_IN + 2] {
        heap.make_instance(class, Vec::new(alloc), 1)?;
    }
    make_maps(alloc, heap)
}

fn make_no_keys(alloc: Global, heap: &mut Heap) -> Result<(), Fail> {
    heap.make_list(Vec::new(alloc))?;
    heap.make_range(1, 3, false, false)?;
    heap.make_closure(0, 1, Value::Null, Vec::new(alloc))?;
    let piece = Part::Piece(Text::from_str(alloc, "k")?);
    let parts = vec![in alloc; piece]?;
    heap.make_gstring(parts)?;
    heap.make_entry(Value::Null, Value::Null)?;
    Ok(())
}

fn make_maps(alloc: Global, heap: &mut Heap) -> Result<(), Fail> {
    heap.make_map()?;
    heap.make_map()?;
    let map = heap.make_map()?;
    let key = MapKey::GText(Text::from_str(alloc, "k")?);
    heap.put(map, key, GSTRING, Value::Int(2))?;
    Ok(())
}

// ---- the classes

fn script(alloc: Global, names: &mut Names) -> Result<Classes, OutOfMemory> {
    let mut classes = Classes::new(alloc, names)?;
    for (name, above, method) in CLASSES {
        let name = names.intern(name)?;
        let above = names.intern(above)?;
        let method = names.intern(method)?;
        classes.add(declared(alloc, name, above, method)?)?;
    }
    Ok(classes)
}

fn declared(alloc: Global, name: Name, above: Name, method: Name) -> Result<Declared, OutOfMemory>
    ensures { IfOk result (λ class. spec.AreRestsTyped class) }
{
    let place = Place {
        file: 0,
        line: 1,
        column: 1,
    };
    let mut members = Items::new(alloc);
    members.push(Member {
        name: method,
        types: Items::new(alloc),
        kind: MemberKind::Method,
        flags: 0,
        place,
    })?;
    Ok(Declared {
        name,
        above,
        intercepts: false,
        place,
        members,
    })
}
