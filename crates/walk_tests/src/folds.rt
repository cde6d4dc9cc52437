use crate::folds::Step::{Handed, Judged};
use gv_base::Value::{Bool, Int, Long, Null};
use gv_base::{OutOfMemory, Value};
use gv_folds::Args::{One, Two};
use gv_folds::{
    Args, Fold, FoldTurn, go, list_fold, map_fold, range_fold, resume_fold, times_fold,
};
use gv_heap::Object;
use gv_texts::Question::AsBoolean;
use std::alloc::Global;
use std::test::Fail;
use walk_world::{A, F, ITEM, LIST, MAP, NO_LIST, NO_RANGE, THREE, UP, World, object_of};

/// A turn, and what is answered.
#[derive(Clone, Copy)]
enum Step {
    /// The closure is called.
    Handed(Args, Value),
    /// An instance is asked whether it is true.
    Judged(Value, Value),
}

/// A method of a list or a range, its receiver and arguments, its turns, and what it answers.
type Folded<'a> = (&'a str, Value, &'a [Value], &'a [Step], Value);

/// Methods that make nothing.
const PLAIN: [Folded; 20] = [
    ("each", NO_LIST, &[F], &[], NO_LIST),
    (
        "each",
        LIST,
        &[F],
        &[Handed(One(Int(1)), Null), Handed(One(A), Null)],
        LIST,
    ),
    ("each", NO_RANGE, &[F], &[], NO_RANGE),
    (
        "each",
        UP,
        &[F],
        &[
            Handed(One(Int(1)), A),
            Handed(One(Int(2)), A),
            Handed(One(Int(3)), A),
        ],
        UP,
    ),
    ("eachWithIndex", NO_LIST, &[F], &[], NO_LIST),
    (
        "eachWithIndex",
        LIST,
        &[F],
        &[
            Handed(Two(Int(1), Int(0)), Null),
            Handed(Two(A, Int(1)), Null),
        ],
        LIST,
    ),
    ("find", NO_LIST, &[F], &[], Null),
    (
        "find",
        LIST,
        &[F],
        &[Handed(One(Int(1)), Null), Handed(One(A), Int(7))],
        A,
    ),
    (
        "find",
        LIST,
        &[F],
        &[Handed(One(Int(1)), Int(0)), Handed(One(A), NO_LIST)],
        Null,
    ),
    (
        "find",
        LIST,
        &[F],
        &[Handed(One(Int(1)), ITEM), Judged(ITEM, Int(0))],
        Int(1),
    ),
    ("any", NO_LIST, &[F], &[], Bool(false)),
    ("any", LIST, &[F], &[Handed(One(Int(1)), A)], Bool(true)),
    (
        "any",
        LIST,
        &[F],
        &[
            Handed(One(Int(1)), ITEM),
            Judged(ITEM, Null),
            Handed(One(A), Null),
        ],
        Bool(false),
    ),
    ("every", NO_LIST, &[F], &[], Bool(true)),
    (
        "every",
        LIST,
        &[F],
        &[Handed(One(Int(1)), Null)],
        Bool(false),
    ),
    (
        "every",
        LIST,
        &[F],
        &[Handed(One(Int(1)), A), Handed(One(A), A)],
        Bool(true),
    ),
    ("inject", NO_LIST, &[Int(5), F], &[], Int(5)),
    (
        "inject",
        LIST,
        &[Int(5), F],
        &[
            Handed(Two(Int(5), Int(1)), Int(6)),
            Handed(Two(Int(6), A), ITEM),
        ],
        ITEM,
    ),
    ("count", NO_LIST, &[F], &[], Int(0)),
    (
        "count",
        THREE,
        &[F],
        &[
            Handed(One(Int(1)), A),
            Handed(One(Int(2)), Null),
            Handed(One(Int(3)), A),
        ],
        Int(2),
    ),
];

/// Turns, and the elements of the list that a method answers.
type Listed<'a> = (&'a str, Value, &'a [Step], &'a [Value]);

const LISTED: [Listed; 5] = [
    ("collect", NO_LIST, &[], &[]),
    (
        "collect",
        LIST,
        &[Handed(One(Int(1)), A), Handed(One(A), Null)],
        &[A, Null],
    ),
    ("findAll", NO_LIST, &[], &[]),
    (
        "findAll",
        LIST,
        &[Handed(One(Int(1)), Null), Handed(One(A), A)],
        &[A],
    ),
    (
        "findAll",
        UP,
        &[
            Handed(One(Int(1)), A),
            Handed(One(Int(2)), Int(0)),
            Handed(One(Int(3)), A),
        ],
        &[Int(1), Int(3)],
    ),
];

/// Folds of numbers, whose methods answer null.
const NUMBERED: [(Value, Value, bool, &[Step]); 5] = [
    (Int(1), Int(0), false, &[]),
    (
        Int(1),
        Int(2),
        false,
        &[Handed(One(Int(1)), A), Handed(One(Int(2)), A)],
    ),
    (
        Int(1),
        Int(0),
        true,
        &[Handed(One(Int(1)), A), Handed(One(Int(0)), A)],
    ),
    (Long(9), Int(9), true, &[Handed(One(Long(9)), A)]),
    (
        Int(2147483646),
        Int(2147483647),
        false,
        &[
            Handed(One(Int(2147483646)), A),
            Handed(One(Int(2147483647)), A),
        ],
    ),
];

/// Goes through turns; what a method answers behind them.
fn answer(
    alloc: Global,
    world: &mut World,
    fold: Fold,
    steps: &[Step],
) -> Result<Option<Value>, OutOfMemory> {
    let World {
        names,
        classes,
        heap,
        ..
    } = world;
    let mut turn = go(alloc, heap, fold)?;
    for step in steps {
        turn = match turn {
            FoldTurn::Calls { fold, args } => match *step {
                Handed(wanted, answer) => {
                    if args != wanted {
                        return Ok(None);
                    }
                    resume_fold(alloc, names, classes, heap, fold, answer)?
                }
                Judged(..) => return Ok(None),
            },
            FoldTurn::Asks {
                fold,
                receiver,
                question,
            } => match *step {
                Judged(wanted, answer) => {
                    if receiver != wanted || question != AsBoolean {
                        return Ok(None);
                    }
                    resume_fold(alloc, names, classes, heap, fold, answer)?
                }
                Handed(..) => return Ok(None),
            },
            _ => return Ok(None),
        };
    }
    match turn {
        FoldTurn::Done(value) => Ok(Some(value)),
        _ => Ok(None),
    }
}

#[test]
fn folds_of_lists(rt: HostRuntime) -> Result<(), Fail> {
    let alloc = rt.alloc();
    let mut world = World::new(alloc)?;
    for (place, row) in PLAIN.iter().enumerate() {
        let (name, list, args, steps, value) = *row;
        let fold = list_fold(alloc, &world.heap, name, object_of(list), args)?;
        let answered = answer(alloc, &mut world, fold, steps)?;
        assert_eq!(rt; (place, answered), (place, Some(value)));
    }
    let fold = list_fold(alloc, &world.heap, "each", object_of(LIST), &[F])?;
    let early = answer(alloc, &mut world, fold, &[Handed(One(Int(1)), Null)])?;
    assert_eq!(rt; early, None);
    Ok(())
}

#[test]
fn folds_that_make_lists(rt: HostRuntime) -> Result<(), Fail> {
    let alloc = rt.alloc();
    let mut world = World::new(alloc)?;
    for (place, row) in LISTED.iter().enumerate() {
        let (name, list, steps, elements) = *row;
        let cells = world.heap.cells_left();
        let fold = list_fold(alloc, &world.heap, name, object_of(list), &[F])?;
        let made = answer(alloc, &mut world, fold, steps)?.unwrap_or(Null);
        match world.heap.get(object_of(made)) {
            Some(Object::List(held)) => assert_eq!(rt; (place, held.as_slice()), (place, elements)),
            _ => assert_eq!(rt; place, LISTED.len()),
        }
        let spent = cells.saturating_sub(world.heap.cells_left());
        assert_eq!(rt; spent, 1 + elements.len() as u64);
    }
    Ok(())
}

#[test]
fn folds_of_numbers_and_maps(rt: HostRuntime) -> Result<(), Fail> {
    let alloc = rt.alloc();
    let mut world = World::new(alloc)?;
    for (place, row) in NUMBERED.iter().enumerate() {
        let (first, last, down, steps) = *row;
        let fold = range_fold(first, last, down, F);
        let answered = answer(alloc, &mut world, fold, steps)?;
        assert_eq!(rt; (place, answered), (place, Some(Null)));
    }
    let steps = [Handed(One(Int(0)), A), Handed(One(Int(1)), A)];
    let answered = answer(alloc, &mut world, times_fold(Int(2), F), &steps)?;
    assert_eq!(rt; answered, Some(Null));
    let answered = answer(alloc, &mut world, times_fold(Int(-1), F), &[])?;
    assert_eq!(rt; answered, Some(Null));
    let fold = map_fold(alloc, &world.heap, "each", object_of(MAP), true, F)?;
    let answered = answer(alloc, &mut world, fold, &[Handed(Two(A, Int(1)), Null)])?;
    assert_eq!(rt; answered, Some(MAP));
    Ok(())
}
