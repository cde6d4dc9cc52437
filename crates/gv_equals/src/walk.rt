//! The turns of a comparison.

ghost use Rattle.std.specs.Prelude.{◌≡◌, ◌+◌, ◌-◌, ◌^◌, min, IfOk};
ghost use Rattle.gv_equals.specs.Equals as spec;

use crate::compared::{Compared, compare};
use crate::pairs::put_opened;
use crate::stage::{Same, Stage};
use crate::step::{Step, id_of, left_step, pair_step, right_step, truth_step};
use gv_base::{Names, OutOfMemory, Value};
use gv_classes::Classes;
use gv_code::Stack;
use gv_heap::Heap;
use gv_texts::{Question, resume_text};
use gv_truths::{resume_truth, start_truth};
use std::alloc::Global;

/// What a walk comes to.
#[derive(Debug, Drop)]
pub enum EqualTurn {
    /// Whether the values are equal.
    Is(bool),
    /// A value is asked.
    Asks {
        walk: EqualWalk,
        receiver: Value,
        question: Question,
    },
}

/// A walk that has asked.
#[derive(Debug, Drop)]
pub struct EqualWalk {
    pub stage: Stage,
    /// What is still to compare.
    pub todo: Stack<Same>,
    /// How many pairs around are entered, with the one that it asks to enter.
    pub inside: usize,
}

impl EqualWalk {
    /// How many values that lie in others the walk is in; what can't be counted is the greatest number.
    pub fn inside(&self) -> usize
        ensures { result ≡ min (self.now.inside + spec.stage_inside self.now.stage) (2 ^ 64 - 1) }
    {
        self.inside.saturating_add(self.stage.inside())
    }
}

/// The first turn of whether two values are equal.
pub fn start_equals(
    alloc: Global,
    names: &Names,
    classes: &Classes,
    heap: &Heap,
    left: Value,
    right: Value,
) -> Result<EqualTurn, OutOfMemory>
    ensures { IfOk result (λ turn. turn ≡ spec.started names.now classes.now heap.now left right) }
{
    let mut todo = Stack::new(alloc);
    match compare(heap, left, right) {
        Compared::Opens => {
            put_opened(heap, id_of(left), id_of(right), &mut todo)?;
            until_told(alloc, names, classes, heap, todo, 0)
        }
        compared => {
            let step = pair_step(alloc, names, classes, heap, false, left, right, compared)?;
            go_on(alloc, names, classes, heap, step, todo, 0)
        }
    }
}

/// The turn behind the answer to a question.
pub fn resume_equals(
    alloc: Global,
    names: &Names,
    classes: &Classes,
    heap: &Heap,
    walk: EqualWalk,
    answer: Value,
) -> Result<EqualTurn, OutOfMemory>
    ensures { IfOk result (λ turn. turn ≡ spec.resumed names.now classes.now heap.now walk answer) }
{
    let EqualWalk {
        stage,
        mut todo,
        inside,
    } = walk;
    let step = match stage {
        Stage::Answer => truth_step(start_truth(alloc, names, classes, heap, answer)?),
        Stage::Truth(walk) => truth_step(resume_truth(alloc, names, classes, heap, walk, answer)?),
        Stage::Left {
            walk,
            right,
            is_inner,
        } => {
            let turn = resume_text(alloc, names, classes, heap, walk, answer)?;
            left_step(alloc, names, classes, heap, is_inner, right, turn)?
        }
        Stage::Right { walk, left } => {
            right_step(
                left,
                resume_text(alloc, names, classes, heap, walk, answer)?,
            )
        }
        Stage::Entry { left, right } => {
            todo.push(Same::Leave)?;
            put_opened(heap, left, right, &mut todo)?;
            Step::Goes(true)
        }
    };
    go_on(alloc, names, classes, heap, step, todo, inside)
}

/// Compares pairs up to the first that isn't equal, or the next question.
fn until_told(
    alloc: Global,
    names: &Names,
    classes: &Classes,
    heap: &Heap,
    todo: Stack<Same>,
    inside: usize,
) -> Result<EqualTurn, OutOfMemory>
    ensures { IfOk result (λ turn. turn ≡ spec.until_told names.now classes.now heap.now todo inside) }
{
    let mut todo = todo;
    let mut inside = inside;
    while let Some(next) = todo.pop() {
        match next {
            Same::Leave => inside = inside.saturating_sub(1),
            Same::Alone => return Ok(EqualTurn::Is(false)),
            Same::Pair { left, right } => {
                let compared = compare(heap, left, right);
                match pair_step(alloc, names, classes, heap, true, left, right, compared)? {
                    Step::Goes(true) => {}
                    Step::Goes(false) => return Ok(EqualTurn::Is(false)),
                    Step::Waits {
                        stage,
                        receiver,
                        question,
                    } => return asks(stage, todo, inside, receiver, question),
                }
            }
        }
    }
    Ok(EqualTurn::Is(true))
}

/// Goes on behind the step of a pair.
fn go_on(
    alloc: Global,
    names: &Names,
    classes: &Classes,
    heap: &Heap,
    step: Step,
    todo: Stack<Same>,
    inside: usize,
) -> Result<EqualTurn, OutOfMemory>
    ensures { IfOk result (λ turn. turn ≡ spec.stepped step todo (spec.until_told names.now classes.now heap.now todo) inside) }
{
    match step {
        Step::Goes(true) => until_told(alloc, names, classes, heap, todo, inside),
        Step::Goes(false) => Ok(EqualTurn::Is(false)),
        Step::Waits {
            stage,
            receiver,
            question,
        } => asks(stage, todo, inside, receiver, question),
    }
}

/// A walk that has asked.
fn asks(
    stage: Stage,
    todo: Stack<Same>,
    inside: usize,
    receiver: Value,
    question: Question,
) -> Result<EqualTurn, OutOfMemory>
    ensures { IfOk result (λ turn. turn ≡ spec.asking stage todo inside receiver question) }
{
    let inside = match stage {
        Stage::Entry { .. } => inside.checked_add(1).ok_or(OutOfMemory)?,
        _ => inside,
    };
    Ok(EqualTurn::Asks {
        walk: EqualWalk {
            stage,
            todo,
            inside,
        },
        receiver,
        question,
    })
}
