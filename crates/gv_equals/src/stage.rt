//! What a walk has still to compare, and what it waits for.

ghost use Rattle.std.specs.Prelude.{◌≡◌};
ghost use Rattle.gv_equals.specs.Equals.{stage_inside};

use gv_base::{ObjId, Text, Value};
use gv_texts::TextWalk;
use gv_truths::TruthWalk;

/// A thing that is still to compare.
#[derive(Clone, Copy, Debug, PartialEq, Eq)]
pub enum Same {
    /// Two values that lie in those around.
    Pair { left: Value, right: Value },
    /// Nothing on the right for a value on the left.
    Alone,
    /// Nothing; here two values end that were entered.
    Leave,
}

/// Where a walk has asked.
#[derive(Debug, Drop)]
pub enum Stage {
    /// An instance, which answers whether it equals another value.
    Answer,
    /// For the truth of such an answer.
    Truth(TruthWalk),
    /// To enter two lists, ranges or maps.
    Entry {
        left: ObjId,
        right: ObjId,
    },
    /// For the text on the left.
    Left {
        walk: TextWalk,
        right: Value,
        /// Whether the two strings lie in other values.
        is_inner: bool,
    },
    /// For the text on the right.
    Right {
        walk: TextWalk,
        left: Text,
    },
}

impl Stage {
    /// How many values the question itself is in, within those that are compared.
    pub(crate) fn inside(&self) -> usize
        ensures { result ≡ stage_inside self.now }
    {
        match self {
            Stage::Answer | Stage::Entry { .. } => 0,
            Stage::Truth(walk) => walk.inside(),
            Stage::Left { walk, .. } | Stage::Right { walk, .. } => walk.inside,
        }
    }
}
