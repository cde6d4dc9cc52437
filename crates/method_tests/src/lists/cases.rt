use crate::lists::world::{NEXT, World, answers, is_spent, throws};
use gv_base::{ExceptionKind, Value};
use std::alloc::Global;
use std::test::Fail;

/// A receiver, a row and its arguments, and the value that it answers. Nothing is made or changed.
pub(crate) type Answered<'a> = (Value, &'a str, &'a [Value], Value);

/// A receiver, a row and its arguments, and the elements of the List that it makes.
pub(crate) type Made<'a> = (Value, &'a str, &'a [Value], &'a [Value]);

/// A receiver, a row and its arguments, the value that it answers, the elements that it leaves, and its price.
pub(crate) type Written<'a> = (Value, &'a str, &'a [Value], Value, &'a [Value], u64);

/// A receiver, a row and its arguments, and what it throws.
pub(crate) type Thrown<'a> = (Value, &'a str, &'a [Value], ExceptionKind, &'a str);

/// The first case that answers something else, without a cell.
pub(crate) fn wrong_answer(alloc: Global, cases: &[Answered]) -> Result<Option<usize>, Fail> {
    let mut world = World::new(alloc, 0)?;
    for (place, case) in cases.iter().enumerate() {
        let (receiver, name, args, value) = *case;
        let done = world.call(receiver, name, args);
        if !answers(done, value) || !world.is_untouched(0) {
            return Ok(Some(place));
        }
    }
    Ok(None)
}

/// The first case that throws something else, with or without cells.
pub(crate) fn wrong_throw(alloc: Global, cases: &[Thrown]) -> Result<Option<usize>, Fail> {
    for (place, case) in cases.iter().enumerate() {
        let (receiver, name, args, kind, message) = *case;
        for cells in [0, 99] {
            let mut world = World::new(alloc, cells)?;
            let done = world.call(receiver, name, args);
            if !throws(done, kind, message) || !world.is_untouched(cells) {
                return Ok(Some(place));
            }
        }
    }
    Ok(None)
}

/// The first case that makes another List, or that doesn't take exactly its price.
pub(crate) fn wrong_list(alloc: Global, cases: &[Made]) -> Result<Option<usize>, Fail> {
    for (place, case) in cases.iter().enumerate() {
        let (receiver, name, args, elements) = *case;
        let short = elements.len() as u64;
        let mut world = World::new(alloc, short)?;
        let done = world.call(receiver, name, args);
        if !is_spent(done) || !world.is_untouched(short) {
            return Ok(Some(place));
        }
        let mut world = World::new(alloc, short.saturating_add(1))?;
        let done = world.call(receiver, name, args);
        if !answers(done, NEXT) || !world.is_list(NEXT, elements) || world.heap.cells_left() != 0 {
            return Ok(Some(place));
        }
    }
    Ok(None)
}

/// The first case that writes something else, or that doesn't take exactly its price.
pub(crate) fn wrong_write(alloc: Global, cases: &[Written]) -> Result<Option<usize>, Fail> {
    for (place, case) in cases.iter().enumerate() {
        let (receiver, name, args, value, elements, price) = *case;
        if let Some(short) = price.checked_sub(1) {
            let mut world = World::new(alloc, short)?;
            let done = world.call(receiver, name, args);
            if !is_spent(done) || !world.is_untouched(short) {
                return Ok(Some(place));
            }
        }
        let mut world = World::new(alloc, price)?;
        let done = world.call(receiver, name, args);
        if !answers(done, value)
            || !world.is_list(receiver, elements)
            || world.heap.cells_left() != 0
        {
            return Ok(Some(place));
        }
    }
    Ok(None)
}
