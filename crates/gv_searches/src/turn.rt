//! The turns of a search.

ghost use Rattle.std.specs.Prelude.{◌≡◌};
ghost use Rattle.gv_searches.specs.Searches as spec;

use crate::search::{Outcome, Search};
use crate::walk::resumed;
use gv_base::{Names, ObjId, OutOfMemory, Value};
use gv_classes::Classes;
use gv_heap::{Heap, Object};
use gv_texts::Question;
use std::alloc::Global;

/// A turn of a search.
#[derive(Debug, Drop)]
pub enum SearchTurn {
    /// A value is asked.
    Asks {
        search: Search,
        receiver: Value,
        question: Question,
    },
    /// The method answers.
    Done(Value),
}

/// The turn behind the answer to a question.
pub fn resume_search(
    alloc: Global,
    names: &Names,
    classes: &Classes,
    heap: &mut Heap,
    search: Search,
    answer: Value,
) -> Result<SearchTurn, OutOfMemory>
    ensures { spec.Turns heap.old (spec.resumed names.now classes.now heap.old search answer) result heap.new }
{
    let outcome = resumed(alloc, names, classes, heap, search, answer)?;
    Ok(turn_of(heap, outcome))
}

/// The turn that an outcome is.
pub(crate) fn turn_of(heap: &mut Heap, outcome: Outcome) -> SearchTurn
    ensures { spec.Turned heap.old outcome result heap.new }
{
    match outcome {
        Outcome::Asks {
            search,
            receiver,
            question,
        } => SearchTurn::Asks {
            search,
            receiver,
            question,
        },
        Outcome::Answers(value) => SearchTurn::Done(value),
        Outcome::TakesOut { list, at } => {
            take_out(heap, list, at);
            SearchTurn::Done(Value::Bool(true))
        }
    }
}

/// Takes out what stands at a place of a list, if anything does.
#[tactic(auto, using(crate::proofs::Heaps::list_with))]
fn take_out(heap: &mut Heap, list: ObjId, at: usize)
    ensures { heap.new ≡ spec.without_at heap.old list at }
{
    let is_there = match heap.get(list) {
        Some(Object::List(elements)) => at < elements.as_slice().len(),
        _ => false,
    };
    if is_there {
        let _ = heap.remove_item(list, at);
    }
}
