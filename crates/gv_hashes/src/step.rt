//! The step of a value.

ghost use Rattle.std.specs.Prelude.{◌≡◌, IfOk};
ghost use Rattle.gv_heap.specs.Heap.{object_at};
ghost use Rattle.gv_hashes.specs.Hashes as spec;

use crate::texts::text_hash;
use crate::todo::Stage;
use gv_base::{Names, ObjId, OutOfMemory, Value, plain_hash};
use gv_classes::Classes;
use gv_heap::{Heap, Object};
use gv_rows::class_name;
use gv_texts::{Question, TextTurn, start_inner_text, start_text};
use std::alloc::Global;

/// How a value is hashed.
#[derive(Clone, Copy, Debug, PartialEq, Eq)]
pub(crate) enum Hashed {
    /// Its hash is known.
    Is(i32),
    /// By its text, which is asked for.
    ByText,
    /// By what lies in it.
    Opens,
    /// It is asked.
    Asked,
}

/// What is known of a value's hash.
#[derive(Debug, Drop)]
pub(crate) enum Step {
    /// The hash.
    Is(i32),
    /// That there is none: an answer is no Integer.
    NoInteger(Value),
    /// Nothing, before something is asked.
    Waits {
        stage: Stage,
        receiver: Value,
        question: Question,
    },
}

pub(crate) fn hash_value(names: &Names, classes: &Classes, heap: &Heap, value: Value) -> Hashed
    ensures { result ≡ spec.hash_step names.now classes.now heap.now value }
{
    match value {
        Value::Obj(id) => hash_object(heap, id),
        Value::Class(class) => Hashed::Is(text_hash(class_name(names, classes, class))),
        _ => Hashed::Is(plain_hash(value).unwrap_or(0)),
    }
}

fn hash_object(heap: &Heap, id: ObjId) -> Hashed
    ensures { result ≡ spec.object_step (object_at heap.now id) }
{
    match heap.get(id) {
        Some(Object::Text(text)) => Hashed::Is(text_hash(text.as_str())),
        Some(Object::GString(_)) => Hashed::ByText,
        Some(Object::List(_) | Object::Range(_) | Object::Map(_)) => Hashed::Opens,
        Some(Object::Instance(_)) => Hashed::Asked,
        _ => Hashed::Is(0),
    }
}

/// The step of a value; `is_inner` says that it lies in another one.
pub(crate) fn value_step(
    alloc: Global,
    names: &Names,
    classes: &Classes,
    heap: &Heap,
    is_inner: bool,
    value: Value,
    hashed: Hashed,
) -> Result<Step, OutOfMemory>
    ensures { IfOk result (λ step. step ≡ spec.value_step names.now classes.now heap.now is_inner value hashed) }
{
    match hashed {
        Hashed::Is(hash) => Ok(Step::Is(hash)),
        Hashed::ByText => {
            Ok(text_step(text_turn(alloc, names, classes, heap, is_inner, value)?))
        }
        Hashed::Opens => Ok(Step::Waits {
            stage: Stage::Entry(id_of(value)),
            receiver: value,
            question: Question::Enter,
        }),
        Hashed::Asked => Ok(Step::Waits {
            stage: Stage::Answer,
            receiver: value,
            question: Question::HashCode,
        }),
    }
}

fn text_turn(
    alloc: Global,
    names: &Names,
    classes: &Classes,
    heap: &Heap,
    is_inner: bool,
    value: Value,
) -> Result<TextTurn, OutOfMemory>
    ensures { IfOk result (λ turn. turn ≡ spec.text_turn names.now classes.now heap.now is_inner value) }
{
    if is_inner {
        start_inner_text(alloc, names, classes, heap, value)
    } else {
        start_text(alloc, names, classes, heap, value)
    }
}

/// The step behind a turn of a text.
pub(crate) fn text_step(turn: TextTurn) -> Step
    ensures { result ≡ spec.text_step turn }
{
    match turn {
        TextTurn::Text(text) => Step::Is(text_hash(text.as_str())),
        TextTurn::Asks {
            walk,
            receiver,
            question,
        } => Step::Waits {
            stage: Stage::Text(walk),
            receiver,
            question,
        },
    }
}

/// The step behind the answer of an instance.
pub(crate) fn answer_step(answer: Value) -> Step
    ensures { result ≡ spec.answer_step answer }
{
    match answer {
        Value::Int(hash) => Step::Is(hash),
        _ => Step::NoInteger(answer),
    }
}

/// The number of the object that a value is.
pub(crate) fn id_of(value: Value) -> ObjId
    ensures { result ≡ spec.id_of value }
{
    match value {
        Value::Obj(id) => id,
        _ => 0,
    }
}
