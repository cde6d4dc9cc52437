//! A fold.

use crate::source::{Handed, Source};
use gv_base::Value;
use gv_code::Stack;
use gv_truths::TruthWalk;

/// What a fold keeps of the answers.
#[derive(Debug, Drop)]
pub enum Keeping {
    /// Nothing; what the method answers.
    Each(Value),
    /// All of them, the last one first.
    Collected(Stack<Value>),
    /// Nothing; the first true one ends it with what it was asked about.
    Found,
    /// The elements with true ones, the last one first.
    FoundAll(Stack<Value>),
    /// Nothing; the first true one ends it.
    Any,
    /// Nothing; the first false one ends it.
    Every,
    /// The last one, which is handed to the closure before the next element.
    Injected(Value),
    /// How many true ones there were.
    Counted(usize),
}

/// What a fold was told by its last question.
#[derive(Debug, Drop)]
pub enum Pending {
    /// What the closure answers.
    Answer,
    /// Something about the truth of such an answer.
    Truth(TruthWalk),
}

/// A method between two turns.
#[derive(Debug, Drop)]
pub struct Fold {
    pub closure: Value,
    pub source: Source,
    pub keeping: Keeping,
    /// What the last turn was about.
    pub handed: Handed,
    pub pending: Pending,
}

/// What an answer that is true or isn't does to a fold.
#[derive(Debug, Drop)]
pub(crate) enum Kept {
    /// It goes on with this.
    Goes(Keeping),
    /// It answers what the last turn was about.
    Finds,
    /// It answers so.
    Is(bool),
}
