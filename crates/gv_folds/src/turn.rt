//! The turns of a fold.

ghost use Rattle.std.specs.Prelude.{◌≡◌, IfOk};
ghost use Rattle.gv_folds.specs.Folds as spec;

use crate::ends::{ended, found};
use crate::fold::{Fold, Keeping, Kept, Pending};
use crate::source::{Args, Handed, Handing, Source, next};
use gv_base::{Names, OutOfMemory, Value};
use gv_classes::Classes;
use gv_heap::{Heap, HeapError};
use gv_texts::Question;
use gv_truths::{TruthTurn, resume_truth, start_truth};
use std::alloc::Global;

/// What a fold comes to.
#[derive(Debug, Drop)]
pub enum FoldTurn {
    /// Its closure is called.
    Calls {
        fold: Fold,
        args: Args,
    },
    /// A value is asked for its truth.
    Asks {
        fold: Fold,
        receiver: Value,
        question: Question,
    },
    /// The method answers.
    Done(Value),
    /// What is to be made costs more cells than are left.
    CellsSpent,
}

/// The next turn of a fold that waits for no answer: its first one, where it is new.
pub fn go(alloc: Global, heap: &mut Heap, fold: Fold) -> Result<FoldTurn, OutOfMemory>
    ensures { spec.Turns heap.old (spec.going fold) result heap.new }
{
    let Fold {
        closure,
        source,
        keeping,
        handed,
        pending,
    } = fold;
    match next(source)? {
        Handing::NoMore => ended(alloc, heap, keeping),
        Handing::Hands {
            handed,
            args,
            source,
        } => {
            let args = with_kept(&keeping, args);
            Ok(FoldTurn::Calls {
                fold: Fold {
                    closure,
                    source,
                    keeping,
                    handed,
                    pending: Pending::Answer,
                },
                args,
            })
        }
        Handing::Makes { key, value, source } => match heap.make_entry(key, value) {
            Ok(id) => Ok(FoldTurn::Calls {
                fold: Fold {
                    closure,
                    source,
                    keeping,
                    handed: Handed::Element(Value::Obj(id)),
                    pending: Pending::Answer,
                },
                args: Args::One(Value::Obj(id)),
            }),
            Err(HeapError::CellsSpent) => Ok(FoldTurn::CellsSpent),
            Err(HeapError::OutOfMemory) => Err(OutOfMemory),
        },
    }
}

/// The turn behind the answer to a question.
pub fn resume_fold(
    alloc: Global,
    names: &Names,
    classes: &Classes,
    heap: &mut Heap,
    fold: Fold,
    answer: Value,
) -> Result<FoldTurn, OutOfMemory>
    ensures { spec.Turns heap.old (spec.resumed names.now classes.now heap.old fold answer) result heap.new }
{
    let Fold {
        closure,
        source,
        keeping,
        handed,
        pending,
    } = fold;
    match pending {
        Pending::Answer => {
            let fold = Fold {
                closure,
                source,
                keeping,
                handed,
                pending: Pending::Answer,
            };
            answered(alloc, names, classes, heap, fold, answer)
        }
        Pending::Truth(walk) => {
            let turn = resume_truth(alloc, names, classes, heap, walk, answer)?;
            let fold = Fold {
                closure,
                source,
                keeping,
                handed,
                pending: Pending::Answer,
            };
            judging(alloc, heap, fold, turn)
        }
    }
}

/// The turn behind an answer of the closure.
fn answered(
    alloc: Global,
    names: &Names,
    classes: &Classes,
    heap: &mut Heap,
    fold: Fold,
    answer: Value,
) -> Result<FoldTurn, OutOfMemory>
    ensures { spec.Turns heap.old (spec.answered_by names.now classes.now fold.keeping heap.old fold answer) result heap.new }
{
    let Fold {
        closure,
        source,
        keeping,
        handed,
        pending,
    } = fold;
    let keeping = match keeping {
        Keeping::Each(value) => Keeping::Each(value),
        Keeping::Collected(mut values) => {
            values.push(answer)?;
            Keeping::Collected(values)
        }
        Keeping::Injected(_) => Keeping::Injected(answer),
        keeping => {
            let fold = Fold {
                closure,
                source,
                keeping,
                handed,
                pending,
            };
            let turn = start_truth(alloc, names, classes, heap, answer)?;
            return judging(alloc, heap, fold, turn);
        }
    };
    let fold = Fold {
        closure,
        source,
        keeping,
        handed,
        pending,
    };
    go(alloc, heap, fold)
}

/// The turn behind a turn of the truth of an answer.
fn judging(
    alloc: Global,
    heap: &mut Heap,
    fold: Fold,
    turn: TruthTurn,
) -> Result<FoldTurn, OutOfMemory>
    ensures { spec.Turns heap.old (spec.judging fold turn) result heap.new }
{
    match turn {
        TruthTurn::Is(holds) => judged(alloc, heap, fold, holds),
        TruthTurn::Asks {
            walk,
            receiver,
            question,
        } => {
            let Fold {
                closure,
                source,
                keeping,
                handed,
                pending: _,
            } = fold;
            Ok(FoldTurn::Asks {
                fold: Fold {
                    closure,
                    source,
                    keeping,
                    handed,
                    pending: Pending::Truth(walk),
                },
                receiver,
                question,
            })
        }
    }
}

/// The turn behind an answer that is true or isn't.
fn judged(alloc: Global, heap: &mut Heap, fold: Fold, holds: bool) -> Result<FoldTurn, OutOfMemory>
    ensures { spec.Turns heap.old (spec.judged fold (spec.kept fold.keeping fold.handed holds)) result heap.new }
{
    let Fold {
        closure,
        source,
        keeping,
        handed,
        pending,
    } = fold;
    match kept(keeping, handed, holds)? {
        Kept::Finds => found(heap, handed),
        Kept::Is(answer) => Ok(FoldTurn::Done(Value::Bool(answer))),
        Kept::Goes(keeping) => {
            let fold = Fold {
                closure,
                source,
                keeping,
                handed,
                pending,
            };
            go(alloc, heap, fold)
        }
    }
}

/// What is kept of an answer that is true or isn't, or how it ends the fold.
fn kept(keeping: Keeping, handed: Handed, holds: bool) -> Result<Kept, OutOfMemory>
    ensures { IfOk result (λ kept. kept ≡ spec.kept keeping handed holds) }
{
    match (keeping, holds) {
        (Keeping::Found, true) => Ok(Kept::Finds),
        (Keeping::Any, true) => Ok(Kept::Is(true)),
        (Keeping::Every, false) => Ok(Kept::Is(false)),
        (Keeping::FoundAll(mut values), true) => {
            values.push(element_of(handed))?;
            Ok(Kept::Goes(Keeping::FoundAll(values)))
        }
        (Keeping::Counted(count), true) => {
            let count = count.checked_add(1).ok_or(OutOfMemory)?;
            Ok(Kept::Goes(Keeping::Counted(count)))
        }
        (Keeping::Each(value), _) => Ok(Kept::Goes(Keeping::Each(value))),
        (Keeping::Collected(values), _) => Ok(Kept::Goes(Keeping::Collected(values))),
        (Keeping::Injected(value), _) => Ok(Kept::Goes(Keeping::Injected(value))),
        (Keeping::Found, false) => Ok(Kept::Goes(Keeping::Found)),
        (Keeping::Any, false) => Ok(Kept::Goes(Keeping::Any)),
        (Keeping::Every, true) => Ok(Kept::Goes(Keeping::Every)),
        (Keeping::FoundAll(values), false) => Ok(Kept::Goes(Keeping::FoundAll(values))),
        (Keeping::Counted(count), false) => Ok(Kept::Goes(Keeping::Counted(count))),
    }
}

fn element_of(handed: Handed) -> Value
    ensures { result ≡ spec.element_of handed }
{
    match handed {
        Handed::Element(value) => value,
        _ => Value::Null,
    }
}

/// The arguments with what is handed on before them.
fn with_kept(keeping: &Keeping, args: Args) -> Args
    ensures { result ≡ spec.with_kept keeping.now args }
{
    match (keeping, args) {
        (Keeping::Injected(value), Args::One(element)) => Args::Two(*value, element),
        _ => args,
    }
}
