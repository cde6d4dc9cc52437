use crate::lists::takes::{is_receiver, takes_all};
use gv_base::{ExceptionKind, Names, OutOfMemory, Value};
use gv_classes::Classes;
use gv_heap::{Heap, Object};
use gv_lists::call_list;
use gv_natives::{Kind, built_in};
use gv_rows::Done;
use std::alloc::Global;
use std::test::Fail;

/// [10, 20, 30]
pub(crate) const LIST: Value = Value::Obj(0);
/// []
pub(crate) const EMPTY: Value = Value::Obj(1);
/// [2, 0L, -1, 9]
pub(crate) const PLACES: Value = Value::Obj(2);
/// [0, true, -9]
pub(crate) const NO_NUMBER: Value = Value::Obj(3);
/// [1, -4, null]
pub(crate) const BEFORE: Value = Value::Obj(4);
/// 1..3
pub(crate) const UP: Value = Value::Obj(5);
/// 0..<2
pub(crate) const OPEN: Value = Value::Obj(6);
/// -1..0
pub(crate) const FROM_END: Value = Value::Obj(7);
/// 1..-1
pub(crate) const TO_END: Value = Value::Obj(8);
/// 2..<0
pub(crate) const DOWN: Value = Value::Obj(9);
/// 1..<1
pub(crate) const NONE: Value = Value::Obj(10);
/// 5L..6L
pub(crate) const LONGS: Value = Value::Obj(11);
/// 0..2147483646
pub(crate) const LONGEST: Value = Value::Obj(12);
/// 1..-5
pub(crate) const PAST_START: Value = Value::Obj(13);
/// -5..1
pub(crate) const FROM_BEFORE: Value = Value::Obj(14);
/// "abc"
pub(crate) const TEXT: Value = Value::Obj(15);

/// What the objects above take.
const MADE: u64 = 28;
/// The number of the next object.
pub(crate) const NEXT: Value = Value::Obj(16);

/// A heap with the objects above.
#[derive(Drop)]
pub(crate) struct World {
    alloc: Global,
    names: Names,
    classes: Classes,
    pub(crate) heap: Heap,
}

impl World {
    /// One in which so many cells are left.
    pub(crate) fn new(alloc: Global, cells: u64) -> Result<World, Fail> {
        let mut names = Names::new(alloc);
        let classes = Classes::new(alloc, &mut names)?;
        let mut heap = Heap::new(alloc, cells.saturating_add(MADE));
        make_lists(alloc, &mut heap)?;
        make_ranges(&mut heap)?;
        heap.make_literal("abc")?;
        Ok(World {
            alloc,
            names,
            classes,
            heap,
        })
    }

    /// What the row of List of this name does; None where none takes these arguments.
    pub(crate) fn call(&mut self, receiver: Value, name: &str, args: &[Value]) -> Option<Done> {
        call(
            self.alloc,
            &self.names,
            &self.classes,
            &mut self.heap,
            receiver,
            name,
            args,
        )
    }

    /// Whether a value is a List of these elements.
    pub(crate) fn is_list(&self, list: Value, elements: &[Value]) -> bool {
        let Value::Obj(id) = list else {
            return false;
        };
        match self.heap.get(id) {
            Some(Object::List(found)) => found.as_slice() == elements,
            _ => false,
        }
    }

    /// Whether the lists are as they were made, so many cells are left, and nothing was made.
    pub(crate) fn is_untouched(&self, cells: u64) -> bool {
        self.is_list(LIST, &[Value::Int(10), Value::Int(20), Value::Int(30)])
            && self.is_list(EMPTY, &[])
            && self.is_list(
                PLACES,
                &[Value::Int(2), Value::Long(0), Value::Int(-1), Value::Int(9)],
            )
            && self.heap.get(16).is_none()
            && self.heap.cells_left() == cells
    }
}

fn make_lists(alloc: Global, heap: &mut Heap) -> Result<(), Fail> {
    make_list(
        alloc,
        heap,
        &[Value::Int(10), Value::Int(20), Value::Int(30)],
    )?;
    make_list(alloc, heap, &[])?;
    make_list(
        alloc,
        heap,
        &[Value::Int(2), Value::Long(0), Value::Int(-1), Value::Int(9)],
    )?;
    make_list(
        alloc,
        heap,
        &[Value::Int(0), Value::Bool(true), Value::Int(-9)],
    )?;
    make_list(alloc, heap, &[Value::Int(1), Value::Int(-4), Value::Null])?;
    Ok(())
}

fn make_list(alloc: Global, heap: &mut Heap, elements: &[Value]) -> Result<(), Fail> {
    heap.make_list(Vec::from_slice(alloc, elements)?)?;
    Ok(())
}

fn make_ranges(heap: &mut Heap) -> Result<(), Fail> {
    heap.make_range(1, 3, false, false)?;
    heap.make_range(0, 2, true, false)?;
    heap.make_range(-1, 0, false, false)?;
    heap.make_range(1, -1, false, false)?;
    heap.make_range(2, 0, true, false)?;
    heap.make_range(1, 1, true, false)?;
    heap.make_range(5, 6, false, true)?;
    heap.make_range(0, 2147483646, false, false)?;
    heap.make_range(1, -5, false, false)?;
    heap.make_range(-5, 1, false, false)?;
    Ok(())
}

fn call(
    alloc: Global,
    names: &Names,
    classes: &Classes,
    heap: &mut Heap,
    receiver: Value,
    name: &str,
    args: &[Value],
) -> Option<Done> {
    let Ok(arity) = u8::try_from(args.len()) else {
        return None;
    };
    let table = built_in();
    let Some(native) = table.find(name, Kind::List, arity) else {
        return None;
    };
    let row = *table.row(native);
    let is_row = matches!(row.kind, Kind::List) && !row.walks;
    if is_row
        && usize::from(row.arity) == args.len()
        && takes_all(heap, &row, args)
        && is_receiver(heap, receiver)
    {
        Some(call_list(alloc, names, classes, heap, native, receiver, args))
    } else {
        None
    }
}

/// Whether a call answers a value.
pub(crate) fn answers(done: Option<Done>, value: Value) -> bool {
    match done {
        Some(Done::Value(given)) => given == value,
        _ => false,
    }
}

/// Whether a call throws an exception of this kind, with this message.
pub(crate) fn throws(done: Option<Done>, kind: ExceptionKind, text: &str) -> bool {
    match done {
        Some(Done::Thrown(thrown, message)) => thrown == kind && message.text() == Some(text),
        _ => false,
    }
}

/// Whether the cells left don't pay a call.
pub(crate) fn is_spent(done: Option<Done>) -> bool {
    matches!(done, Some(Done::CellsSpent))
}
