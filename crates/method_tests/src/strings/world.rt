use crate::strings::takes::{is_receiver, takes_all};
use gv_base::{ExceptionKind, Names, Value};
use gv_classes::Classes;
use gv_heap::{Heap, Object};
use gv_natives::{Kind, built_in};
use gv_rows::Done;
use gv_strings::call_string;
use std::alloc::Global;
use std::test::Fail;

/// "hello"
pub(crate) const HELLO: Value = Value::Obj(0);
/// ""
pub(crate) const EMPTY: Value = Value::Obj(1);
/// "aß€😀"
pub(crate) const WIDE: Value = Value::Obj(2);
/// " \ta b\n"
pub(crate) const SPACED: Value = Value::Obj(3);
/// "l"
pub(crate) const L: Value = Value::Obj(4);
/// "lo"
pub(crate) const LO: Value = Value::Obj(5);
/// "he"
pub(crate) const HE: Value = Value::Obj(6);
/// "aaaa"
pub(crate) const AAAA: Value = Value::Obj(7);
/// "aa"
pub(crate) const AA: Value = Value::Obj(8);
/// "€"
pub(crate) const EURO: Value = Value::Obj(9);
/// ",a;b,,€;"
pub(crate) const MARKS: Value = Value::Obj(10);
/// ",;"
pub(crate) const SEPARATORS: Value = Value::Obj(11);
/// " +42\n"
pub(crate) const FORTY_TWO: Value = Value::Obj(12);
/// "2147483648"
pub(crate) const PAST_INT: Value = Value::Obj(13);
/// "-2147483648"
pub(crate) const LEAST_INT: Value = Value::Obj(14);
/// "9223372036854775807"
pub(crate) const MOST_LONG: Value = Value::Obj(15);
/// "9223372036854775808"
pub(crate) const PAST_LONG: Value = Value::Obj(16);
/// " x1 "
pub(crate) const WORD: Value = Value::Obj(17);
/// "help"
pub(crate) const HELP: Value = Value::Obj(18);
/// "hel"
pub(crate) const HEL: Value = Value::Obj(19);
/// "ab"
pub(crate) const AB: Value = Value::Obj(20);
/// "-"
pub(crate) const MINUS: Value = Value::Obj(21);
/// [2, 0L, -1]
pub(crate) const PLACES: Value = Value::Obj(22);
/// []
pub(crate) const NOWHERE: Value = Value::Obj(23);
/// [0, true, 9]
pub(crate) const NO_NUMBER: Value = Value::Obj(24);
/// [1, -6, null]
pub(crate) const BEFORE: Value = Value::Obj(25);
/// [0, 5]
pub(crate) const PAST: Value = Value::Obj(26);
/// 1..3
pub(crate) const UP: Value = Value::Obj(27);
/// 0..<2
pub(crate) const OPEN: Value = Value::Obj(28);
/// -1..0
pub(crate) const FROM_END: Value = Value::Obj(29);
/// 1..-1
pub(crate) const TO_END: Value = Value::Obj(30);
/// 1..<1
pub(crate) const NONE: Value = Value::Obj(31);
/// 0..2147483646
pub(crate) const LONGEST: Value = Value::Obj(32);
/// -6..1
pub(crate) const FROM_BEFORE: Value = Value::Obj(33);

/// What the objects above take.
const MADE: u64 = 23;
/// The number of the next object.
pub(crate) const NEXT: usize = 34;

/// The texts above, in order.
const TEXTS: [&str; 22] = [
    "hello",
    "",
    "aß€😀",
    " \ta b\n",
    "l",
    "lo",
    "he",
    "aaaa",
    "aa",
    "€",
    ",a;b,,€;",
    ",;",
    " +42\n",
    "2147483648",
    "-2147483648",
    "9223372036854775807",
    "9223372036854775808",
    " x1 ",
    "help",
    "hel",
    "ab",
    "-",
];

/// A heap with the objects above.
#[derive(Drop)]
pub(crate) struct World {
    alloc: Global,
    names: Names,
    classes: Classes,
    pub(crate) heap: Heap,
}

impl World {
    /// One in which so many cells are left.
    pub(crate) fn new(alloc: Global, cells: u64) -> Result<World, Fail> {
        let mut names = Names::new(alloc);
        let classes = Classes::new(alloc, &mut names)?;
        let mut heap = Heap::new(alloc, cells.saturating_add(MADE));
        make_texts(&mut heap)?;
        make_lists(alloc, &mut heap)?;
        make_ranges(&mut heap)?;
        Ok(World {
            alloc,
            names,
            classes,
            heap,
        })
    }

    /// What the row of String of this name does; None where none takes these arguments.
    pub(crate) fn call(&mut self, receiver: Value, name: &str, args: &[Value]) -> Option<Done> {
        call(
            self.alloc,
            &self.names,
            &self.classes,
            &mut self.heap,
            receiver,
            name,
            args,
        )
    }

    /// Whether an object is a String of this text.
    pub(crate) fn is_text(&self, id: usize, text: &str) -> bool {
        match self.heap.get(id) {
            Some(Object::Text(found)) => found.as_str() == text,
            _ => false,
        }
    }

    /// Whether an object is a List of these elements.
    pub(crate) fn is_list(&self, id: usize, elements: &[Value]) -> bool {
        match self.heap.get(id) {
            Some(Object::List(found)) => found.as_slice() == elements,
            _ => false,
        }
    }

    /// Whether so many cells are left, and nothing was made.
    pub(crate) fn is_untouched(&self, cells: u64) -> bool {
        self.heap.get(NEXT).is_none() && self.heap.cells_left() == cells
    }
}

fn make_texts(heap: &mut Heap) -> Result<(), Fail> {
    for text in TEXTS {
        heap.make_literal(text)?;
    }
    Ok(())
}

fn make_lists(alloc: Global, heap: &mut Heap) -> Result<(), Fail> {
    make_list(
        alloc,
        heap,
        &[Value::Int(2), Value::Long(0), Value::Int(-1)],
    )?;
    make_list(alloc, heap, &[])?;
    make_list(
        alloc,
        heap,
        &[Value::Int(0), Value::Bool(true), Value::Int(9)],
    )?;
    make_list(alloc, heap, &[Value::Int(1), Value::Int(-6), Value::Null])?;
    make_list(alloc, heap, &[Value::Int(0), Value::Int(5)])?;
    Ok(())
}

fn make_list(alloc: Global, heap: &mut Heap, elements: &[Value]) -> Result<(), Fail> {
    heap.make_list(Vec::from_slice(alloc, elements)?)?;
    Ok(())
}

fn make_ranges(heap: &mut Heap) -> Result<(), Fail> {
    heap.make_range(1, 3, false, false)?;
    heap.make_range(0, 2, true, false)?;
    heap.make_range(-1, 0, false, false)?;
    heap.make_range(1, -1, false, false)?;
    heap.make_range(1, 1, true, false)?;
    heap.make_range(0, 2147483646, false, false)?;
    heap.make_range(-6, 1, false, false)?;
    Ok(())
}

fn call(
    alloc: Global,
    names: &Names,
    classes: &Classes,
    heap: &mut Heap,
    receiver: Value,
    name: &str,
    args: &[Value],
) -> Option<Done> {
    let Ok(arity) = u8::try_from(args.len()) else {
        return None;
    };
    let table = built_in();
    let Some(native) = table.find(name, Kind::String, arity) else {
        return None;
    };
    let row = *table.row(native);
    let is_row = matches!(row.kind, Kind::String) && !row.walks;
    if is_row
        && usize::from(row.arity) == args.len()
        && takes_all(heap, &row, args)
        && is_receiver(heap, receiver)
    {
        Some(call_string(alloc, names, classes, heap, native, receiver, args))
    } else {
        None
    }
}

/// Whether a call answers a value.
pub(crate) fn answers(done: Option<Done>, value: Value) -> bool {
    match done {
        Some(Done::Value(given)) => given == value,
        _ => false,
    }
}

/// Whether a call throws an exception of this kind, with this message.
pub(crate) fn throws(done: Option<Done>, kind: ExceptionKind, text: &str) -> bool {
    match done {
        Some(Done::Thrown(thrown, message)) => thrown == kind && message.text() == Some(text),
        _ => false,
    }
}

/// Whether the cells left don't pay a call.
pub(crate) fn is_spent(done: Option<Done>) -> bool {
    matches!(done, Some(Done::CellsSpent))
}
