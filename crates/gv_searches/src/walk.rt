//! The elements, one by one.

ghost use Rattle.std.specs.Prelude.{◌≡◌, IfOk};
ghost use Rattle.gv_searches.specs.Searches as spec;

use crate::ends::{ended, judged};
use crate::search::{Judged, Outcome, Search, Seeking};
use gv_base::{Names, OutOfMemory, Value};
use gv_classes::Classes;
use gv_elements::Elements;
use gv_equals::{EqualTurn, resume_equals, start_equals};
use gv_heap::Heap;
use std::alloc::Global;

/// Compares elements up to the next question, or the end of the search.
pub(crate) fn until_asked(
    alloc: Global,
    names: &Names,
    classes: &Classes,
    heap: &Heap,
    wanted: Value,
    source: Elements,
    at: usize,
    seeking: Seeking,
) -> Result<Outcome, OutOfMemory>
    ensures { IfOk result (λ outcome. outcome ≡ spec.until_asked names.now classes.now heap.now wanted source at seeking) }
{
    let mut source = source;
    let mut at = at;
    let mut seeking = seeking;
    while let Some((value, behind)) = source.next() {
        source = behind;
        match start_equals(alloc, names, classes, heap, value, wanted)? {
            EqualTurn::Is(same) => match judged(seeking, at, same)? {
                Judged::Ends(outcome) => return Ok(outcome),
                Judged::Goes(on) => seeking = on,
            },
            EqualTurn::Asks {
                walk,
                receiver,
                question,
            } => {
                let search = Search {
                    wanted,
                    source,
                    at,
                    seeking,
                    walk,
                };
                return Ok(Outcome::Asks {
                    search,
                    receiver,
                    question,
                });
            }
        }
        at = at.checked_add(1).ok_or(OutOfMemory)?;
    }
    Ok(ended(seeking))
}

/// What a search comes to behind an answer.
pub(crate) fn resumed(
    alloc: Global,
    names: &Names,
    classes: &Classes,
    heap: &Heap,
    search: Search,
    answer: Value,
) -> Result<Outcome, OutOfMemory>
    ensures { IfOk result (λ outcome. outcome ≡ spec.resumed names.now classes.now heap.now search answer) }
{
    let Search {
        wanted,
        source,
        at,
        seeking,
        walk,
    } = search;
    match resume_equals(alloc, names, classes, heap, walk, answer)? {
        EqualTurn::Is(same) => match judged(seeking, at, same)? {
            Judged::Ends(outcome) => Ok(outcome),
            Judged::Goes(on) => {
                let next = at.checked_add(1).ok_or(OutOfMemory)?;
                until_asked(alloc, names, classes, heap, wanted, source, next, on)
            }
        },
        EqualTurn::Asks {
            walk,
            receiver,
            question,
        } => {
            let search = Search {
                wanted,
                source,
                at,
                seeking,
                walk,
            };
            Ok(Outcome::Asks {
                search,
                receiver,
                question,
            })
        }
    }
}
