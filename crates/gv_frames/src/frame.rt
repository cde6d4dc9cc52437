//! A method between two turns, and what a turn is.

use crate::called::Called;
use gv_base::{ExceptionKind, Text, Value};
use gv_distinct::Distinct;
use gv_equals::EqualWalk;
use gv_folds::Fold;
use gv_hashes::HashWalk;
use gv_rows::Message;
use gv_says::Saying;
use gv_searches::Search;
use gv_truths::TruthWalk;
use sqlite_items::Items;

/// A method, or a walk over a value, that has asked for a call.
#[derive(Debug, Drop)]
pub enum WalkFrame {
    /// A method that answers what the call answers.
    Answer,
    /// A method that answers whether that is true.
    Judged,
    Truth(TruthWalk),
    Equal(EqualWalk),
    Hash(HashWalk),
    Said(Saying),
    Fold(Fold),
    Search(Search),
    Distinct(Distinct),
}

/// What a method comes to.
#[derive(Debug, Drop)]
pub enum Turn {
    /// It asks for a call, and waits in a frame for what that answers.
    Call {
        frame: WalkFrame,
        receiver: Value,
        called: Called,
        args: Items<Value>,
    },
    /// It answers.
    Done(Value),
    /// It prints, and answers null.
    Print(Text),
    /// It throws, with a message.
    Thrown(ExceptionKind, Message),
    /// What is to be made costs more cells than are left.
    CellsSpent,
    OutOfMemory,
}
