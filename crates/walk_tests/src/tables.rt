//! Tables of walks over the objects of walk_world.

use gv_base::{OutOfMemory, Value};
use gv_equals::{EqualTurn, resume_equals, start_equals};
use gv_texts::{Question, TextTurn, resume_text, start_inner_text, start_text};
use gv_truths::{TruthTurn, resume_truth, start_truth};
use std::alloc::Global;
use std::test::Fail;
use walk_world::World;

/// Who is asked, what, in how many values that were entered, and what is answered.
pub(crate) type Asked = (Value, Question, usize, Value);

/// A value, the questions on the way to its text, and the text.
pub(crate) type Said<'a> = (Value, &'a [Asked], &'a str);

/// A value, the questions on the way to its truth, and the truth.
pub(crate) type Held<'a> = (Value, &'a [Asked], bool);

/// Two values, the questions on the way, and whether they are equal.
pub(crate) type Paired<'a> = (Value, Value, &'a [Asked], bool);

/// Whether the walk of a text asks these questions, and comes to this text.
fn says(world: &World, is_inner: bool, row: &Said) -> Result<bool, OutOfMemory> {
    let World {
        alloc,
        names,
        classes,
        heap,
    } = world;
    let (value, questions, text) = *row;
    let mut turn = if is_inner {
        start_inner_text(*alloc, names, classes, heap, value)?
    } else {
        start_text(*alloc, names, classes, heap, value)?
    };
    for (asked, wanted, inside, answer) in questions {
        match turn {
            TextTurn::Asks {
                walk,
                receiver,
                question,
            } if receiver == *asked && question == *wanted && walk.inside == *inside => {
                turn = resume_text(*alloc, names, classes, heap, walk, *answer)?;
            }
            _ => return Ok(false),
        }
    }
    match turn {
        TextTurn::Text(said) => Ok(said.as_str() == text),
        TextTurn::Asks { .. } => Ok(false),
    }
}

/// Whether the walk of a truth asks these questions, and comes to this truth.
fn holds(world: &World, row: &Held) -> Result<bool, OutOfMemory> {
    let World {
        alloc,
        names,
        classes,
        heap,
    } = world;
    let (value, questions, truth) = *row;
    let mut turn = start_truth(*alloc, names, classes, heap, value)?;
    for (asked, wanted, inside, answer) in questions {
        match turn {
            TruthTurn::Asks {
                walk,
                receiver,
                question,
            } if receiver == *asked && question == *wanted && walk.inside() == *inside => {
                turn = resume_truth(*alloc, names, classes, heap, walk, *answer)?;
            }
            _ => return Ok(false),
        }
    }
    match turn {
        TruthTurn::Is(found) => Ok(found == truth),
        TruthTurn::Asks { .. } => Ok(false),
    }
}

/// Whether the walk of a comparison asks these questions, and comes to this end.
fn compares(world: &World, row: &Paired) -> Result<bool, OutOfMemory> {
    let World {
        alloc,
        names,
        classes,
        heap,
    } = world;
    let (left, right, questions, same) = *row;
    let mut turn = start_equals(*alloc, names, classes, heap, left, right)?;
    for (asked, wanted, inside, answer) in questions {
        match turn {
            EqualTurn::Asks {
                walk,
                receiver,
                question,
            } if receiver == *asked && question == *wanted && walk.inside() == *inside => {
                turn = resume_equals(*alloc, names, classes, heap, walk, *answer)?;
            }
            _ => return Ok(false),
        }
    }
    match turn {
        EqualTurn::Is(found) => Ok(found == same),
        EqualTurn::Asks { .. } => Ok(false),
    }
}

/// The first row with another text, or with other questions; of values by themselves, or of those that lie in another one.
pub(crate) fn wrong_text(
    alloc: Global,
    is_inner: bool,
    rows: &[Said],
) -> Result<Option<usize>, Fail> {
    let world = World::new(alloc)?;
    for (place, row) in rows.iter().enumerate() {
        if !says(&world, is_inner, row)? {
            return Ok(Some(place));
        }
    }
    Ok(None)
}

/// The first row with another truth, or with other questions.
pub(crate) fn wrong_truth(alloc: Global, rows: &[Held]) -> Result<Option<usize>, Fail> {
    let world = World::new(alloc)?;
    for (place, row) in rows.iter().enumerate() {
        if !holds(&world, row)? {
            return Ok(Some(place));
        }
    }
    Ok(None)
}

/// The first row with another end, or with other questions.
pub(crate) fn wrong_pair(alloc: Global, rows: &[Paired]) -> Result<Option<usize>, Fail> {
    let world = World::new(alloc)?;
    for (place, row) in rows.iter().enumerate() {
        if !compares(&world, row)? {
            return Ok(Some(place));
        }
    }
    Ok(None)
}
