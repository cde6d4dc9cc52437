//! What a walk has still to hash, and what it waits for.

ghost use Rattle.std.specs.Prelude.{◌≡◌};
ghost use Rattle.gv_hashes.specs.Hashes.{stage_inside};

use gv_base::{ObjId, Value};
use gv_texts::TextWalk;

/// A thing that is still to do.
#[derive(Clone, Copy, Debug, PartialEq, Eq)]
pub enum Todo {
    /// The hash of a value.
    Inner(Value),
    /// Another hash begins from this one.
    Start(i32),
    /// The last hash is an element's; it joins the one before it.
    Element,
    /// The last two hashes are of a key and its value; they join the sum before them.
    Entry,
    /// Nothing; here a value ends that was entered.
    Leave,
}

/// What a walk waits for.
#[derive(Debug, Drop)]
pub enum Stage {
    /// The hash that an instance answers.
    Answer,
    /// That the object may be entered.
    Entry(ObjId),
    /// Something about the text of a string with parts.
    Text(TextWalk),
}

impl Stage {
    /// How many values the question itself is in, within those that are hashed.
    pub(crate) fn inside(&self) -> usize
        ensures { result ≡ stage_inside self.now }
    {
        match self {
            Stage::Answer | Stage::Entry(_) => 0,
            Stage::Text(walk) => walk.inside,
        }
    }
}
