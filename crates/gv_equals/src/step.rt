//! The step of a pair.

ghost use Rattle.std.specs.Prelude.{◌≡◌, IfOk};
ghost use Rattle.gv_equals.specs.Equals as spec;

use crate::compared::Compared;
use crate::stage::Stage;
use gv_base::{Names, ObjId, OutOfMemory, Text, Value};
use gv_classes::Classes;
use gv_heap::Heap;
use gv_texts::{Question, TextTurn, start_inner_text, start_text};
use gv_truths::TruthTurn;
use std::alloc::Global;

/// What is known of a pair.
#[derive(Debug, Drop)]
pub(crate) enum Step {
    /// Whether its values are equal.
    Goes(bool),
    /// Nothing, before something is asked.
    Waits {
        stage: Stage,
        receiver: Value,
        question: Question,
    },
}

/// What is known of a pair that was compared.
pub(crate) fn pair_step(
    alloc: Global,
    names: &Names,
    classes: &Classes,
    heap: &Heap,
    is_inner: bool,
    left: Value,
    right: Value,
    compared: Compared,
) -> Result<Step, OutOfMemory>
    ensures { IfOk result (λ step. step ≡ spec.pair_step names.now classes.now heap.now is_inner left right compared) }
{
    match compared {
        Compared::Decided(same) => Ok(Step::Goes(same)),
        Compared::Texts => {
            let turn = text_turn(alloc, names, classes, heap, is_inner, left)?;
            left_step(alloc, names, classes, heap, is_inner, right, turn)
        }
        Compared::Opens => Ok(Step::Waits {
            stage: Stage::Entry {
                left: id_of(left),
                right: id_of(right),
            },
            receiver: left,
            question: Question::Enter,
        }),
        Compared::Asked => Ok(Step::Waits {
            stage: Stage::Answer,
            receiver: left,
            question: Question::Equals(right),
        }),
    }
}

/// The step behind a turn of the left text.
pub(crate) fn left_step(
    alloc: Global,
    names: &Names,
    classes: &Classes,
    heap: &Heap,
    is_inner: bool,
    right: Value,
    turn: TextTurn,
) -> Result<Step, OutOfMemory>
    ensures { IfOk result (λ step. step ≡ spec.left_step names.now classes.now heap.now is_inner right turn) }
{
    match turn {
        TextTurn::Text(left) => {
            let turn = text_turn(alloc, names, classes, heap, is_inner, right)?;
            Ok(right_step(left, turn))
        }
        TextTurn::Asks {
            walk,
            receiver,
            question,
        } => Ok(Step::Waits {
            stage: Stage::Left {
                walk,
                right,
                is_inner,
            },
            receiver,
            question,
        }),
    }
}

/// The step behind a turn of the right text.
pub(crate) fn right_step(left: Text, turn: TextTurn) -> Step
    ensures { result ≡ spec.right_step left turn }
{
    match turn {
        TextTurn::Text(right) => Step::Goes(left == right),
        TextTurn::Asks {
            walk,
            receiver,
            question,
        } => Step::Waits {
            stage: Stage::Right { walk, left },
            receiver,
            question,
        },
    }
}

/// The step behind a turn of the truth of an answer.
pub(crate) fn truth_step(turn: TruthTurn) -> Step
    ensures { result ≡ spec.truth_step turn }
{
    match turn {
        TruthTurn::Is(same) => Step::Goes(same),
        TruthTurn::Asks {
            walk,
            receiver,
            question,
        } => Step::Waits {
            stage: Stage::Truth(walk),
            receiver,
            question,
        },
    }
}

fn text_turn(
    alloc: Global,
    names: &Names,
    classes: &Classes,
    heap: &Heap,
    is_inner: bool,
    value: Value,
) -> Result<TextTurn, OutOfMemory>
    ensures { IfOk result (λ turn. turn ≡ spec.text_turn names.now classes.now heap.now is_inner value) }
{
    if is_inner {
        start_inner_text(alloc, names, classes, heap, value)
    } else {
        start_text(alloc, names, classes, heap, value)
    }
}

/// The number of the object that a value is.
pub(crate) fn id_of(value: Value) -> ObjId
    ensures { result ≡ spec.id_of value }
{
    match value {
        Value::Obj(id) => id,
        _ => 0,
    }
}
