//! The turns of a truth.

ghost use Rattle.std.specs.Prelude.{◌≡◌, IfOk};
ghost use Rattle.gv_heap.specs.Heap.{object_at};
ghost use Rattle.gv_truths.specs.Truths.{object_truth, resumed, started, text_truth, walk_inside};

use gv_base::{Names, ObjId, OutOfMemory, Value, plain_truth};
use gv_classes::Classes;
use gv_heap::{Heap, Object};
use gv_rows::Sequence;
use gv_texts::{Question, TextTurn, TextWalk, resume_text, start_text};
use std::alloc::Global;

/// What a walk comes to.
#[derive(Debug, Drop)]
pub enum TruthTurn {
    /// The truth.
    Is(bool),
    /// A value is asked.
    Asks {
        walk: TruthWalk,
        receiver: Value,
        question: Question,
    },
}

/// A walk that has asked.
#[derive(Debug, Drop)]
pub enum TruthWalk {
    /// An instance, which answers with its truth.
    Instance,
    /// For the text of a string with parts.
    Text(TextWalk),
}

impl TruthWalk {
    /// How many values that lie in others the walk is in.
    pub fn inside(&self) -> usize
        ensures { result ≡ walk_inside self.now }
    {
        match self {
            TruthWalk::Instance => 0,
            TruthWalk::Text(walk) => walk.inside,
        }
    }
}

/// The first turn of the truth of a value.
pub fn start_truth(
    alloc: Global,
    names: &Names,
    classes: &Classes,
    heap: &Heap,
    value: Value,
) -> Result<TruthTurn, OutOfMemory>
    ensures { IfOk result (λ turn. turn ≡ started names.now classes.now heap.now value) }
{
    match value {
        Value::Obj(id) => object_truth(alloc, names, classes, heap, id),
        _ => Ok(TruthTurn::Is(plain_truth(value).unwrap_or(true))),
    }
}

/// The turn behind the answer to a question.
pub fn resume_truth(
    alloc: Global,
    names: &Names,
    classes: &Classes,
    heap: &Heap,
    walk: TruthWalk,
    answer: Value,
) -> Result<TruthTurn, OutOfMemory>
    ensures { IfOk result (λ turn. turn ≡ resumed names.now classes.now heap.now walk answer) }
{
    match walk {
        TruthWalk::Instance => Ok(TruthTurn::Is(!matches!(
            answer,
            Value::Null | Value::Bool(false)
        ))),
        TruthWalk::Text(walk) => {
            Ok(text_truth(resume_text(alloc, names, classes, heap, walk, answer)?))
        }
    }
}

fn object_truth(
    alloc: Global,
    names: &Names,
    classes: &Classes,
    heap: &Heap,
    id: ObjId,
) -> Result<TruthTurn, OutOfMemory>
    ensures { IfOk result (λ turn. turn ≡ object_truth names.now classes.now heap.now id (object_at heap.now id)) }
{
    match heap.get(id) {
        Some(Object::Text(text)) => Ok(TruthTurn::Is(!text.as_str().is_empty())),
        Some(Object::GString(_)) => {
            let turn = start_text(alloc, names, classes, heap, Value::Obj(id))?;
            Ok(text_truth(turn))
        }
        Some(Object::List(_) | Object::Range(_)) => {
            Ok(TruthTurn::Is(Sequence::at(heap, id).len() > 0))
        }
        Some(Object::Map(entries)) => Ok(TruthTurn::Is(!entries.is_empty())),
        Some(Object::Instance(_)) => Ok(TruthTurn::Asks {
            walk: TruthWalk::Instance,
            receiver: Value::Obj(id),
            question: Question::AsBoolean,
        }),
        _ => Ok(TruthTurn::Is(true)),
    }
}

/// A text is true where it isn't empty.
fn text_truth(turn: TextTurn) -> TruthTurn
    ensures { result ≡ text_truth turn }
{
    match turn {
        TextTurn::Text(text) => TruthTurn::Is(!text.as_str().is_empty()),
        TextTurn::Asks {
            walk,
            receiver,
            question,
        } => TruthTurn::Asks {
            walk: TruthWalk::Text(walk),
            receiver,
            question,
        },
    }
}
