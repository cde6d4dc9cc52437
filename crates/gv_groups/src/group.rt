//! A method that makes a map of answers.

ghost use Rattle.std.specs.Prelude.{◌≡◌};
ghost use Rattle.gv_groups.specs.Gathering as spec;

use gv_base::Value;
use gv_code::Stack;
use gv_folds::{Handed, Source};
use gv_gathered::{Gathered, Groups};
use gv_heap::{MapKey, Slot};
use gv_texts::TextWalk;
use gv_truths::TruthWalk;

/// What is gathered of the answers.
#[derive(Debug, Drop)]
pub enum Gathering {
    /// The elements by the keys that were answered.
    Groups(Groups),
    /// The entries that were answered.
    Entries(Gathered),
    /// The entries with true answers, and those that have no answer yet, the first one on top.
    Found {
        kept: Gathered,
        entries: Stack<(MapKey, Slot)>,
    },
}

/// What the last question was about.
#[derive(Debug, Drop)]
pub enum Pending {
    /// What the closure answers.
    Answer,
    /// The text of a key that is a string with parts, and what is put at the key.
    Key {
        walk: TextWalk,
        shown: Value,
        value: Value,
    },
    /// The truth of an answer.
    Truth(TruthWalk),
}

/// A method between two turns.
#[derive(Debug, Drop)]
pub struct Group {
    pub closure: Value,
    pub source: Source,
    pub gathering: Gathering,
    /// What the last turn was about.
    pub handed: Handed,
    pub pending: Pending,
}

impl Group {
    /// How many values that lie in others its walk is in.
    pub fn inside(&self) -> usize
        ensures { result ≡ spec.inside self.now.pending }
    {
        match &self.pending {
            Pending::Answer => 0,
            Pending::Key { walk, .. } => walk.inside,
            Pending::Truth(walk) => walk.inside(),
        }
    }

    /// It with something else gathered.
    pub(crate) fn with_gathering(self, gathering: Gathering) -> Group
        ensures { result ≡ spec.gathers self gathering }
    {
        Group {
            closure: self.closure,
            source: self.source,
            gathering,
            handed: self.handed,
            pending: self.pending,
        }
    }

    /// It with another question.
    pub(crate) fn with_pending(self, pending: Pending) -> Group
        ensures { result ≡ spec.waits self pending }
    {
        Group {
            closure: self.closure,
            source: self.source,
            gathering: self.gathering,
            handed: self.handed,
            pending,
        }
    }
}
