//! The turns of the crates below as turns.

ghost use Rattle.std.specs.Prelude.{◌≡◌, [], IfOk};
ghost use Rattle.gv_frames.specs.Turns as spec;
ghost use Rattle.gv_texts.specs.Questions.{argument_of};

use crate::called::{Called, called_by};
use crate::frame::{Turn, WalkFrame};
use gv_base::{ExceptionKind, Names, OutOfMemory, Value};
use gv_classes::Classes;
use gv_distinct::DistinctTurn;
use gv_equals::EqualTurn;
use gv_folds::{Args, FoldTurn};
use gv_hashes::HashTurn;
use gv_heap::Heap;
use gv_rows::{Message, class_name, class_of};
use gv_says::SaidTurn;
use gv_searches::SearchTurn;
use gv_texts::Question;
use gv_truths::TruthTurn;
use sqlite_items::Items;
use std::alloc::Global;

/// A question as a call.
fn asked(
    alloc: Global,
    frame: WalkFrame,
    receiver: Value,
    question: Question,
) -> Result<Turn, OutOfMemory>
    ensures { IfOk result (λ turn. turn ≡ spec.asked frame receiver question) }
{
    let args = arguments(alloc, question)?;
    Ok(Turn::Call {
        frame,
        receiver,
        called: called_by(question),
        args,
    })
}

/// What a question is asked with.
fn arguments(alloc: Global, question: Question) -> Result<Items<Value>, OutOfMemory>
    ensures { IfOk result (λ args. args ≡ spec.args_of (argument_of question)) }
{
    let mut args = Items::new(alloc);
    if let Some(argument) = question.argument() {
        args.push(argument)?;
    }
    Ok(args)
}

pub(crate) fn truth_turn(alloc: Global, turn: TruthTurn) -> Result<Turn, OutOfMemory>
    ensures { IfOk result (λ lifted. lifted ≡ spec.truth_turn turn) }
{
    match turn {
        TruthTurn::Is(holds) => Ok(Turn::Done(Value::Bool(holds))),
        TruthTurn::Asks {
            walk,
            receiver,
            question,
        } => asked(alloc, WalkFrame::Truth(walk), receiver, question),
    }
}

pub(crate) fn equal_turn(alloc: Global, turn: EqualTurn) -> Result<Turn, OutOfMemory>
    ensures { IfOk result (λ lifted. lifted ≡ spec.equal_turn turn) }
{
    match turn {
        EqualTurn::Is(holds) => Ok(Turn::Done(Value::Bool(holds))),
        EqualTurn::Asks {
            walk,
            receiver,
            question,
        } => asked(alloc, WalkFrame::Equal(walk), receiver, question),
    }
}

pub(crate) fn hash_turn(
    alloc: Global,
    names: &Names,
    classes: &Classes,
    heap: &Heap,
    turn: HashTurn,
) -> Result<Turn, OutOfMemory>
    ensures { IfOk result (λ lifted. lifted ≡ spec.hash_turn names.now classes.now heap.now turn) }
{
    match turn {
        HashTurn::Is(hash) => Ok(Turn::Done(Value::Int(hash))),
        HashTurn::NoInteger(answer) => no_integer(alloc, names, classes, heap, answer),
        HashTurn::Asks {
            walk,
            receiver,
            question,
        } => asked(alloc, WalkFrame::Hash(walk), receiver, question),
    }
}

/// An answer to `hashCode` that is no Integer.
fn no_integer(
    alloc: Global,
    names: &Names,
    classes: &Classes,
    heap: &Heap,
    answer: Value,
) -> Result<Turn, OutOfMemory>
    ensures { IfOk result (λ turn. turn ≡ spec.no_integer names.now classes.now heap.now answer) }
{
    let mut text = String::new(alloc);
    text.push_str("Cannot cast object of class '")?;
    text.push_str(kind_name(names, classes, heap, answer))?;
    text.push_str("' to class 'Integer'")?;
    Ok(Turn::Thrown(ExceptionKind::GroovyCastException, Message::new(text)))
}

/// The name of the class of a value, or `null`.
fn kind_name<'a>(names: &'a Names, classes: &Classes, heap: &Heap, value: Value) -> &'a str
    ensures { result.now ≡ spec.kind_name names.now classes.now heap.now value }
{
    match value {
        Value::Null => "null",
        _ => class_name(names, classes, class_of(heap, value)),
    }
}

pub(crate) fn said_turn(alloc: Global, turn: SaidTurn) -> Result<Turn, OutOfMemory>
    ensures { IfOk result (λ lifted. lifted ≡ spec.said_turn turn) }
{
    match turn {
        SaidTurn::Asks {
            saying,
            receiver,
            question,
        } => asked(alloc, WalkFrame::Said(saying), receiver, question),
        SaidTurn::Print(text) => Ok(Turn::Print(text)),
        SaidTurn::Done(value) => Ok(Turn::Done(value)),
        SaidTurn::CellsSpent => Ok(Turn::CellsSpent),
    }
}

pub(crate) fn fold_turn(alloc: Global, turn: FoldTurn) -> Result<Turn, OutOfMemory>
    ensures { IfOk result (λ lifted. lifted ≡ spec.fold_turn turn) }
{
    match turn {
        FoldTurn::Calls { fold, args } => {
            let closure = fold.closure;
            called(alloc, WalkFrame::Fold(fold), closure, args)
        }
        FoldTurn::Asks {
            fold,
            receiver,
            question,
        } => asked(alloc, WalkFrame::Fold(fold), receiver, question),
        FoldTurn::Done(value) => Ok(Turn::Done(value)),
        FoldTurn::CellsSpent => Ok(Turn::CellsSpent),
    }
}

pub(crate) fn search_turn(alloc: Global, turn: SearchTurn) -> Result<Turn, OutOfMemory>
    ensures { IfOk result (λ lifted. lifted ≡ spec.search_turn turn) }
{
    match turn {
        SearchTurn::Asks {
            search,
            receiver,
            question,
        } => asked(alloc, WalkFrame::Search(search), receiver, question),
        SearchTurn::Done(value) => Ok(Turn::Done(value)),
    }
}

pub(crate) fn distinct_turn(alloc: Global, turn: DistinctTurn) -> Result<Turn, OutOfMemory>
    ensures { IfOk result (λ lifted. lifted ≡ spec.distinct_turn turn) }
{
    match turn {
        DistinctTurn::Asks {
            distinct,
            receiver,
            question,
        } => asked(alloc, WalkFrame::Distinct(distinct), receiver, question),
        DistinctTurn::Done(value) => Ok(Turn::Done(value)),
        DistinctTurn::CellsSpent => Ok(Turn::CellsSpent),
    }
}

/// The call of a closure.
fn called(alloc: Global, frame: WalkFrame, closure: Value, args: Args) -> Result<Turn, OutOfMemory>
    ensures { IfOk result (λ turn. turn ≡ spec.calls frame closure args) }
{
    let args = values_of(alloc, args)?;
    Ok(Turn::Call {
        frame,
        receiver: closure,
        called: Called::Call,
        args,
    })
}

/// What a closure is called with.
fn values_of(alloc: Global, args: Args) -> Result<Items<Value>, OutOfMemory>
    ensures { IfOk result (λ values. values ≡ spec.values_of args) }
{
    let mut values = Items::new(alloc);
    match args {
        Args::One(first) => values.push(first)?,
        Args::Two(first, second) => {
            values.push(first)?;
            values.push(second)?;
        }
    }
    Ok(values)
}
