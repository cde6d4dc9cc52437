//! An element beside the values that it is compared with.

ghost use Rattle.std.specs.Prelude.{◌≡◌, ◌≤◌, drop, length, IfOk};
ghost use Rattle.gv_distinct.specs.Distinct as spec;

use crate::distinct::{Dropping, Verdict};
use gv_base::{Names, OutOfMemory, Value};
use gv_classes::Classes;
use gv_equals::{EqualTurn, start_equals};
use gv_heap::Heap;
use std::alloc::Global;

/// The first turn of whether an element equals another value; where repeated ones go, the other is asked.
fn compare(
    alloc: Global,
    names: &Names,
    classes: &Classes,
    heap: &Heap,
    dropping: &Dropping,
    element: Value,
    other: Value,
) -> Result<EqualTurn, OutOfMemory>
    ensures { IfOk result (λ turn. turn ≡ spec.compared names.now classes.now heap.now dropping.now element other) }
{
    match dropping {
        Dropping::Others(_) => start_equals(alloc, names, classes, heap, element, other),
        Dropping::Repeated(_) => start_equals(alloc, names, classes, heap, other, element),
    }
}

/// Compares an element with the values that are left, up to the first equal one or the next question.
pub(crate) fn against_all(
    alloc: Global,
    names: &Names,
    classes: &Classes,
    heap: &Heap,
    dropping: &Dropping,
    element: Value,
    others: &[Value],
    compared: usize,
) -> Result<Verdict, OutOfMemory>
    ensures { IfOk result (λ verdict. verdict ≡ spec.against_all names.now classes.now heap.now dropping.now element (drop compared others.now) compared) }
{
    let mut at = compared;
    while at < others.len() {
        let turn = compare(alloc, names, classes, heap, dropping, element, others[at])?;
        at += 1;
        match turn {
            EqualTurn::Is(true) => return Ok(Verdict::Drops),
            EqualTurn::Is(false) => {}
            EqualTurn::Asks {
                walk,
                receiver,
                question,
            } => {
                return Ok(Verdict::Waits {
                    compared: at,
                    walk,
                    receiver,
                    question,
                });
            }
        }
    }
    Ok(Verdict::Keeps)
}

/// Goes on behind a turn of a comparison.
pub(crate) fn judge(
    alloc: Global,
    names: &Names,
    classes: &Classes,
    heap: &Heap,
    dropping: &Dropping,
    element: Value,
    others: &[Value],
    compared: usize,
    turn: EqualTurn,
) -> Result<Verdict, OutOfMemory>
    ensures { IfOk result (λ verdict. verdict ≡ spec.judged turn compared (spec.against_all names.now classes.now heap.now dropping.now element (drop compared others.now) compared)) }
{
    match turn {
        EqualTurn::Is(true) => Ok(Verdict::Drops),
        EqualTurn::Is(false) => against_all(
            alloc, names, classes, heap, dropping, element, others, compared,
        ),
        EqualTurn::Asks {
            walk,
            receiver,
            question,
        } => Ok(Verdict::Waits {
            compared,
            walk,
            receiver,
            question,
        }),
    }
}
