//! The turn behind the answer to a call.

ghost use Rattle.std.specs.Prelude.{◌≡◌, IfOk};
ghost use Rattle.gv_frames.specs.Frames as spec;
ghost use Rattle.gv_frames.specs.Turns as turns;
ghost use Rattle.gv_distinct.specs.Distinct as distincts;
ghost use Rattle.gv_folds.specs.Folds as folds;
ghost use Rattle.gv_says.specs.Says as says;
ghost use Rattle.gv_searches.specs.Searches as searches;

use crate::frame::{Turn, WalkFrame};
use crate::turns::{
    distinct_turn, equal_turn, fold_turn, hash_turn, said_turn, search_turn, truth_turn,
};
use gv_base::{Names, OutOfMemory, Value};
use gv_classes::Classes;
use gv_distinct::{Distinct, resume_distinct};
use gv_equals::resume_equals;
use gv_folds::{Fold, resume_fold};
use gv_hashes::resume_hash;
use gv_heap::Heap;
use gv_says::{Saying, resume_saying};
use gv_searches::{Search, resume_search};
use gv_truths::{resume_truth, start_truth};
use std::alloc::Global;

/// The turn of a method behind what its call answered.
pub fn resume(
    alloc: Global,
    names: &Names,
    classes: &Classes,
    heap: &mut Heap,
    frame: WalkFrame,
    answer: Value,
) -> Turn
    ensures { spec.Resumes names.now classes.now heap.old frame answer result heap.new }
{
    match resumed(alloc, names, classes, heap, frame, answer) {
        Ok(turn) => turn,
        Err(OutOfMemory) => Turn::OutOfMemory,
    }
}

fn resumed(
    alloc: Global,
    names: &Names,
    classes: &Classes,
    heap: &mut Heap,
    frame: WalkFrame,
    answer: Value,
) -> Result<Turn, OutOfMemory>
    ensures { IfOk result (λ turn. spec.Resumed names.now classes.now heap.old frame answer turn heap.new) }
{
    match frame {
        WalkFrame::Answer => Ok(Turn::Done(answer)),
        WalkFrame::Judged => truth_turn(alloc, start_truth(alloc, names, classes, heap, answer)?),
        WalkFrame::Truth(walk) => truth_turn(
            alloc,
            resume_truth(alloc, names, classes, heap, walk, answer)?,
        ),
        WalkFrame::Equal(walk) => equal_turn(
            alloc,
            resume_equals(alloc, names, classes, heap, walk, answer)?,
        ),
        WalkFrame::Hash(walk) => {
            let turn = resume_hash(alloc, names, classes, heap, walk, answer)?;
            hash_turn(alloc, names, classes, heap, turn)
        }
        WalkFrame::Said(saying) => resumed_saying(alloc, names, classes, heap, saying, answer),
        WalkFrame::Fold(fold) => resumed_fold(alloc, names, classes, heap, fold, answer),
        WalkFrame::Search(search) => resumed_search(alloc, names, classes, heap, search, answer),
        WalkFrame::Distinct(distinct) => {
            resumed_distinct(alloc, names, classes, heap, distinct, answer)
        }
    }
}

fn resumed_saying(
    alloc: Global,
    names: &Names,
    classes: &Classes,
    heap: &mut Heap,
    saying: Saying,
    answer: Value,
) -> Result<Turn, OutOfMemory>
    ensures { IfOk result (λ turn. spec.Comes (says.Turned heap.old (says.resumed names.now classes.now heap.old saying answer)) turns.said_turn turn heap.new) }
{
    said_turn(
        alloc,
        resume_saying(alloc, names, classes, heap, saying, answer)?,
    )
}

fn resumed_fold(
    alloc: Global,
    names: &Names,
    classes: &Classes,
    heap: &mut Heap,
    fold: Fold,
    answer: Value,
) -> Result<Turn, OutOfMemory>
    ensures { IfOk result (λ turn. spec.Comes (folds.Turned heap.old (folds.resumed names.now classes.now heap.old fold answer)) turns.fold_turn turn heap.new) }
{
    fold_turn(
        alloc,
        resume_fold(alloc, names, classes, heap, fold, answer)?,
    )
}

fn resumed_search(
    alloc: Global,
    names: &Names,
    classes: &Classes,
    heap: &mut Heap,
    search: Search,
    answer: Value,
) -> Result<Turn, OutOfMemory>
    ensures { IfOk result (λ turn. spec.Comes (searches.Turned heap.old (searches.resumed names.now classes.now heap.old search answer)) turns.search_turn turn heap.new) }
{
    search_turn(
        alloc,
        resume_search(alloc, names, classes, heap, search, answer)?,
    )
}

fn resumed_distinct(
    alloc: Global,
    names: &Names,
    classes: &Classes,
    heap: &mut Heap,
    distinct: Distinct,
    answer: Value,
) -> Result<Turn, OutOfMemory>
    ensures { IfOk result (λ turn. spec.Comes (distincts.Turned heap.old (distincts.resumed names.now classes.now heap.old distinct answer)) turns.distinct_turn turn heap.new) }
{
    distinct_turn(
        alloc,
        resume_distinct(alloc, names, classes, heap, distinct, answer)?,
    )
}
