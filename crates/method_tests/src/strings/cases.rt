use crate::strings::world::{NEXT, World, answers, is_spent, throws};
use gv_base::{ExceptionKind, Value};
use std::alloc::Global;
use std::test::Fail;

/// A receiver, a row and its arguments, and the value that it answers. Nothing is made.
pub(crate) type Answered<'a> = (Value, &'a str, &'a [Value], Value);

/// A receiver, a row and its arguments, the text of the String that it makes, and its price.
pub(crate) type Made<'a> = (Value, &'a str, &'a [Value], &'a str, u64);

/// A receiver, a row and its arguments, the texts of the Strings in the List that it makes, and its price.
pub(crate) type Cut<'a> = (Value, &'a str, &'a [Value], &'a [&'a str], u64);

/// A receiver, a row and its arguments, and what it throws.
pub(crate) type Thrown<'a> = (Value, &'a str, &'a [Value], ExceptionKind, &'a str);

/// The first case that answers something else, without a cell.
pub(crate) fn wrong_answer(alloc: Global, cases: &[Answered]) -> Result<Option<usize>, Fail> {
    let mut world = World::new(alloc, 0)?;
    for (place, case) in cases.iter().enumerate() {
        let (receiver, name, args, value) = *case;
        let done = world.call(receiver, name, args);
        if !answers(done, value) || !world.is_untouched(0) {
            return Ok(Some(place));
        }
    }
    Ok(None)
}

/// The first case that throws something else, with or without cells.
pub(crate) fn wrong_throw(alloc: Global, cases: &[Thrown]) -> Result<Option<usize>, Fail> {
    for cells in [0, 99] {
        let mut world = World::new(alloc, cells)?;
        for (place, case) in cases.iter().enumerate() {
            let (receiver, name, args, kind, message) = *case;
            let done = world.call(receiver, name, args);
            if !throws(done, kind, message) || !world.is_untouched(cells) {
                return Ok(Some(place));
            }
        }
    }
    Ok(None)
}

/// Whether a call does nothing where a cell is wanting.
pub(crate) fn is_refused(
    alloc: Global,
    receiver: Value,
    name: &str,
    args: &[Value],
    price: u64,
) -> Result<bool, Fail> {
    let Some(short) = price.checked_sub(1) else {
        return Ok(false);
    };
    let mut world = World::new(alloc, short)?;
    let done = world.call(receiver, name, args);
    Ok(is_spent(done) && world.is_untouched(short))
}

/// The first case that makes another String, or that doesn't take exactly its price.
pub(crate) fn wrong_text(alloc: Global, cases: &[Made]) -> Result<Option<usize>, Fail> {
    for (place, case) in cases.iter().enumerate() {
        let (receiver, name, args, text, price) = *case;
        let mut world = World::new(alloc, price)?;
        let done = world.call(receiver, name, args);
        if !answers(done, Value::Obj(NEXT))
            || !world.is_text(NEXT, text)
            || world.heap.cells_left() != 0
            || !is_refused(alloc, receiver, name, args, price)?
        {
            return Ok(Some(place));
        }
    }
    Ok(None)
}

/// The first case that makes another List, or that doesn't take exactly its price.
pub(crate) fn wrong_list(alloc: Global, cases: &[Cut]) -> Result<Option<usize>, Fail> {
    for (place, case) in cases.iter().enumerate() {
        let (receiver, name, args, texts, price) = *case;
        let mut world = World::new(alloc, price)?;
        let done = world.call(receiver, name, args);
        let list = NEXT.saturating_add(texts.len());
        if !answers(done, Value::Obj(list))
            || !is_list_of(alloc, &world, list, texts)?
            || world.heap.cells_left() != 0
            || !is_refused(alloc, receiver, name, args, price)?
        {
            return Ok(Some(place));
        }
    }
    Ok(None)
}

/// Whether an object is a List of the Strings before it, and they have these texts.
fn is_list_of(alloc: Global, world: &World, list: usize, texts: &[&str]) -> Result<bool, Fail> {
    let mut strings = Vec::new(alloc);
    for (place, text) in texts.iter().enumerate() {
        let id = NEXT.saturating_add(place);
        if !world.is_text(id, text) {
            return Ok(false);
        }
        strings.push(Value::Obj(id))?;
    }
    Ok(world.is_list(list, strings.as_slice()))
}
