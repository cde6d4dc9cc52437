//! The turns of a method.

ghost use Rattle.std.specs.Prelude.{◌≡◌, IfOk};
ghost use Rattle.gv_heap.specs.Heap.{object_at};
ghost use Rattle.gv_rows.specs.Takes as takes;
ghost use Rattle.gv_distinct.specs.Distinct as spec;

use crate::compare::{against_all, judge};
use crate::distinct::{Distinct, Dropping, Progress, Selection, Verdict};
use crate::ends::finish;
use gv_base::{Names, ObjId, OutOfMemory, Value};
use gv_classes::Classes;
use gv_elements::Elements;
use gv_equals::resume_equals;
use gv_heap::{Heap, Object};
use gv_rows::Sequence;
use gv_texts::Question;
use sqlite_items::Items;
use std::alloc::Global;

/// What a method comes to.
#[derive(Debug, Drop)]
pub enum DistinctTurn {
    /// A value is asked about an element and a value beside it.
    Asks {
        distinct: Distinct,
        receiver: Value,
        question: Question,
    },
    /// The method answers.
    Done(Value),
    /// The elements that are kept cost more cells than are left.
    CellsSpent,
}

/// The first turn of `minus` of a list or a range: without the elements of another one, or without a value.
pub fn start_minus(
    alloc: Global,
    names: &Names,
    classes: &Classes,
    heap: &mut Heap,
    id: ObjId,
    removed: Value,
) -> Result<DistinctTurn, OutOfMemory>
    ensures { spec.Turns heap.old (spec.minus_started names.now classes.now heap.old id removed) result heap.new }
{
    let others = others_in(alloc, heap, removed)?;
    start(alloc, names, classes, heap, id, Dropping::Others(others))
}

/// The first turn of `unique` of a list: in place, without the elements that equal one that is kept before them.
pub fn start_unique(
    alloc: Global,
    names: &Names,
    classes: &Classes,
    heap: &mut Heap,
    id: ObjId,
) -> Result<DistinctTurn, OutOfMemory>
    ensures { spec.Turns heap.old (spec.unique_started names.now classes.now heap.old id) result heap.new }
{
    start(alloc, names, classes, heap, id, Dropping::Repeated(id))
}

fn start(
    alloc: Global,
    names: &Names,
    classes: &Classes,
    heap: &mut Heap,
    id: ObjId,
    dropping: Dropping,
) -> Result<DistinctTurn, OutOfMemory>
    ensures { spec.Turns heap.old (spec.started names.now classes.now heap.old id dropping) result heap.new }
{
    let selection = Selection {
        dropping,
        kept: Items::new(alloc),
        source: Elements::at(alloc, heap, id)?,
    };
    let progress = until_asked(alloc, names, classes, heap, selection)?;
    finish(alloc, heap, progress)
}

/// The turn behind the answer to a question.
pub fn resume_distinct(
    alloc: Global,
    names: &Names,
    classes: &Classes,
    heap: &mut Heap,
    distinct: Distinct,
    answer: Value,
) -> Result<DistinctTurn, OutOfMemory>
    ensures { spec.Turns heap.old (spec.resumed names.now classes.now heap.old distinct answer) result heap.new }
{
    let Distinct {
        selection,
        element,
        compared,
        walk,
    } = distinct;
    let turn = resume_equals(alloc, names, classes, heap, walk, answer)?;
    let dropping = &selection.dropping;
    let others = dropping.others(&selection.kept);
    let verdict = judge(
        alloc, names, classes, heap, dropping, element, others, compared, turn,
    )?;
    let progress = go_on(alloc, names, classes, heap, verdict, element, selection)?;
    finish(alloc, heap, progress)
}

/// Goes on behind what the comparisons of an element come to.
fn go_on(
    alloc: Global,
    names: &Names,
    classes: &Classes,
    heap: &Heap,
    verdict: Verdict,
    element: Value,
    selection: Selection,
) -> Result<Progress, OutOfMemory>
    ensures { IfOk result (λ progress. progress ≡ spec.selected verdict element selection.source selection.dropping selection.kept (spec.until_asked names.now classes.now heap.now selection.dropping selection.source)) }
{
    let mut selection = selection;
    match verdict {
        Verdict::Drops => until_asked(alloc, names, classes, heap, selection),
        Verdict::Keeps => {
            selection.kept.push(element)?;
            until_asked(alloc, names, classes, heap, selection)
        }
        Verdict::Waits {
            compared,
            walk,
            receiver,
            question,
        } => Ok(Progress::Asks {
            distinct: Distinct {
                selection,
                element,
                compared,
                walk,
            },
            receiver,
            question,
        }),
    }
}

/// Goes through the elements that are still to come, up to the next question.
fn until_asked(
    alloc: Global,
    names: &Names,
    classes: &Classes,
    heap: &Heap,
    selection: Selection,
) -> Result<Progress, OutOfMemory>
    ensures { IfOk result (λ progress. progress ≡ spec.until_asked names.now classes.now heap.now selection.dropping selection.source selection.kept) }
{
    let Selection {
        dropping,
        mut kept,
        mut source,
    } = selection;
    while let Some((element, rest)) = source.next() {
        source = rest;
        let others = dropping.others(&kept);
        match against_all(alloc, names, classes, heap, &dropping, element, others, 0)? {
            Verdict::Drops => {}
            Verdict::Keeps => kept.push(element)?,
            Verdict::Waits {
                compared,
                walk,
                receiver,
                question,
            } => {
                let selection = Selection {
                    dropping,
                    kept,
                    source,
                };
                return Ok(Progress::Asks {
                    distinct: Distinct {
                        selection,
                        element,
                        compared,
                        walk,
                    },
                    receiver,
                    question,
                });
            }
        }
    }
    Ok(Progress::Ended { dropping, kept })
}

/// The elements of a list or a range, or the value itself.
fn others_in(alloc: Global, heap: &Heap, removed: Value) -> Result<Items<Value>, OutOfMemory>
    ensures { IfOk result (λ others. others ≡ spec.others_in heap.now removed) }
{
    match removed {
        Value::Obj(id) if is_sequence(heap, id) => {
            let elements = Sequence::at(heap, id);
            Ok(Items::from_vec(elements.copy(alloc, 0, elements.len())?))
        }
        _ => Items::from_slice(alloc, &[removed]),
    }
}

fn is_sequence(heap: &Heap, id: ObjId) -> bool
    ensures { result ≡ takes.is_sequence (object_at heap.now id) }
{
    matches!(heap.get(id), Some(Object::List(_) | Object::Range(_)))
}
