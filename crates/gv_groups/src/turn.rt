//! The turns of a method that makes a map of answers.

ghost use Rattle.std.specs.Prelude.{◌≡◌, IfOk};
ghost use Rattle.gv_groups.specs.Groups as spec;

use crate::ends::ended;
use crate::gather::{element_of, judged};
use crate::group::{Gathering, Group, Pending};
use crate::keys::{collecting, keying, texted};
use gv_base::{ExceptionKind, Names, OutOfMemory, Value};
use gv_classes::Classes;
use gv_folds::{Args, Handed, Handing, next};
use gv_heap::{Heap, HeapError};
use gv_rows::Message;
use gv_texts::{Question, resume_text};
use gv_truths::{TruthTurn, resume_truth, start_truth};
use std::alloc::Global;

/// What such a method comes to.
#[derive(Debug, Drop)]
pub enum GroupTurn {
    /// Its closure is called.
    Calls {
        group: Group,
        args: Args,
    },
    /// A value is asked for its text or its truth.
    Asks {
        group: Group,
        receiver: Value,
        question: Question,
    },
    /// The method answers.
    Done(Value),
    Thrown(ExceptionKind, Message),
    /// What is to be made costs more cells than are left.
    CellsSpent,
}

/// The next turn of a method that waits for no answer: its first one, where it is new.
pub fn go_group(alloc: Global, heap: &mut Heap, group: Group) -> Result<GroupTurn, OutOfMemory>
    ensures { spec.Turns heap.old (spec.going group) result heap.new }
{
    let Group {
        closure,
        source,
        gathering,
        handed: _,
        pending: _,
    } = group;
    match next(source)? {
        Handing::NoMore => ended(alloc, heap, gathering),
        Handing::Hands {
            handed,
            args,
            source,
        } => Ok(GroupTurn::Calls {
            group: Group {
                closure,
                source,
                gathering,
                handed,
                pending: Pending::Answer,
            },
            args,
        }),
        Handing::Makes { key, value, source } => match heap.make_entry(key, value) {
            Ok(id) => Ok(GroupTurn::Calls {
                group: Group {
                    closure,
                    source,
                    gathering,
                    handed: Handed::Element(Value::Obj(id)),
                    pending: Pending::Answer,
                },
                args: Args::One(Value::Obj(id)),
            }),
            Err(HeapError::CellsSpent) => Ok(GroupTurn::CellsSpent),
            Err(HeapError::OutOfMemory) => Err(OutOfMemory),
        },
    }
}

/// The turn behind the answer to a question.
pub fn resume_group(
    alloc: Global,
    names: &Names,
    classes: &Classes,
    heap: &mut Heap,
    group: Group,
    answer: Value,
) -> Result<GroupTurn, OutOfMemory>
    ensures { spec.Turns heap.old (spec.resumed names.now classes.now heap.old group answer) result heap.new }
{
    let Group {
        closure,
        source,
        gathering,
        handed,
        pending,
    } = group;
    let group = Group {
        closure,
        source,
        gathering,
        handed,
        pending: Pending::Answer,
    };
    match pending {
        Pending::Answer => answered(alloc, names, classes, heap, group, answer),
        Pending::Key { walk, shown, value } => {
            let turn = resume_text(alloc, names, classes, heap, walk, answer)?;
            texted(alloc, heap, group, shown, value, turn)
        }
        Pending::Truth(walk) => {
            let turn = resume_truth(alloc, names, classes, heap, walk, answer)?;
            judging(alloc, heap, group, turn)
        }
    }
}

/// The turn behind an answer of the closure.
fn answered(
    alloc: Global,
    names: &Names,
    classes: &Classes,
    heap: &mut Heap,
    group: Group,
    answer: Value,
) -> Result<GroupTurn, OutOfMemory>
    ensures { spec.Turns heap.old (spec.answered_by names.now classes.now group.gathering heap.old group answer) result heap.new }
{
    match &group.gathering {
        Gathering::Groups(_) => {
            let element = element_of(group.handed);
            keying(alloc, names, classes, heap, group, answer, element)
        }
        Gathering::Entries(_) => collecting(alloc, names, classes, heap, group, answer),
        Gathering::Found { .. } => {
            let turn = start_truth(alloc, names, classes, heap, answer)?;
            judging(alloc, heap, group, turn)
        }
    }
}

/// The turn behind a turn of the truth of an answer.
fn judging(
    alloc: Global,
    heap: &mut Heap,
    group: Group,
    turn: TruthTurn,
) -> Result<GroupTurn, OutOfMemory>
    ensures { spec.Turns heap.old (spec.judging group turn) result heap.new }
{
    match turn {
        TruthTurn::Is(holds) => {
            let group = judged_group(group, holds)?;
            go_group(alloc, heap, group)
        }
        TruthTurn::Asks {
            walk,
            receiver,
            question,
        } => Ok(GroupTurn::Asks {
            group: group.with_pending(Pending::Truth(walk)),
            receiver,
            question,
        }),
    }
}

fn judged_group(group: Group, holds: bool) -> Result<Group, OutOfMemory>
    ensures { IfOk result (λ more. more ≡ spec.judged_group group holds) }
{
    let Group {
        closure,
        source,
        gathering,
        handed,
        pending,
    } = group;
    Ok(Group {
        closure,
        source,
        gathering: judged(gathering, holds)?,
        handed,
        pending,
    })
}
