//! A search.

ghost use Rattle.std.specs.Prelude.{◌≡◌, ◌+◌, ◌^◌, ◌-◌, min};
ghost use Rattle.gv_searches.specs.Searches as spec;

use gv_base::{ObjId, Value};
use gv_elements::Elements;
use gv_equals::EqualWalk;
use gv_texts::Question;

/// What equal ones are for.
#[derive(Clone, Copy, Debug, PartialEq, Eq)]
pub enum Seeking {
    /// Whether there is one.
    Has,
    /// The place of the first one.
    Place,
    /// What stands at the place of the first one goes out of this list.
    Removes(ObjId),
    /// How many there are; so many there were.
    Counts(usize),
}

/// A search that waits for an answer.
#[derive(Debug, Drop)]
pub struct Search {
    pub wanted: Value,
    /// The elements behind the one that is compared.
    pub source: Elements,
    /// The place of the one that is compared.
    pub at: usize,
    pub seeking: Seeking,
    /// The comparison.
    pub walk: EqualWalk,
}

impl Search {
    /// How many values that lie in others the search is in; what can't be counted is the greatest number.
    pub fn inside(&self) -> usize
        ensures { result ≡ spec.search_inside self.now }
    {
        self.walk.inside()
    }
}

/// What a search comes to.
#[derive(Debug, Drop)]
pub(crate) enum Outcome {
    /// A value is asked.
    Asks {
        search: Search,
        receiver: Value,
        question: Question,
    },
    /// The method answers.
    Answers(Value),
    /// What stands at a place goes out of a list, and the method answers true.
    TakesOut {
        list: ObjId,
        at: usize,
    },
}

/// What a comparison that has ended does to a search.
#[derive(Debug, Drop)]
pub(crate) enum Judged {
    /// It goes on so.
    Goes(Seeking),
    /// It comes to this.
    Ends(Outcome),
}
