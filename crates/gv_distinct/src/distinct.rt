//! A method between two turns.

ghost use Rattle.std.specs.Prelude.{◌≡◌, ◌+◌, ◌-◌, ◌^◌, min};
ghost use Rattle.gv_distinct.specs.Distinct as spec;
ghost use Rattle.gv_equals.specs.Equals.{stage_inside};

use gv_base::{ObjId, Value};
use gv_elements::Elements;
use gv_equals::EqualWalk;
use gv_texts::Question;
use sqlite_items::Items;

/// With what each element is compared, and what becomes of those that are kept.
#[derive(Debug, Drop)]
pub enum Dropping {
    /// With these; a new list is made.
    Others(Items<Value>),
    /// With those that are kept so far; in the end they are the elements of this list.
    Repeated(ObjId),
}

/// The elements that are kept, in order, and those that are still to come.
#[derive(Debug, Drop)]
pub struct Selection {
    pub dropping: Dropping,
    pub kept: Items<Value>,
    pub source: Elements,
}

/// A method that has asked about an element and a value beside it.
#[derive(Debug, Drop)]
pub struct Distinct {
    pub selection: Selection,
    pub element: Value,
    /// With how many values it is compared, with this one.
    pub compared: usize,
    pub walk: EqualWalk,
}

impl Distinct {
    /// How many values that lie in others its comparison is in; what can't be counted is the greatest number.
    pub fn inside(&self) -> usize
        ensures { result ≡ min (self.now.walk.inside + stage_inside self.now.walk.stage) (2 ^ 64 - 1) }
    {
        self.walk.inside()
    }
}

impl Dropping {
    /// What an element is compared with, in order.
    pub(crate) fn others<'a>(&'a self, kept: &'a Items<Value>) -> &'a [Value]
        ensures { result.now ≡ spec.others self.now kept.now }
    {
        match self {
            Dropping::Others(others) => others.as_slice(),
            Dropping::Repeated(_) => kept.as_slice(),
        }
    }
}

/// What the comparisons of an element come to.
#[derive(Debug, Drop)]
pub(crate) enum Verdict {
    Drops,
    Keeps,
    /// A value is asked first.
    Waits {
        compared: usize,
        walk: EqualWalk,
        receiver: Value,
        question: Question,
    },
}

/// What the elements come to.
#[derive(Debug, Drop)]
pub(crate) enum Progress {
    /// All are compared, and these are kept.
    Ended {
        dropping: Dropping,
        kept: Items<Value>,
    },
    Asks {
        distinct: Distinct,
        receiver: Value,
        question: Question,
    },
}
