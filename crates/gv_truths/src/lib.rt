//! The truth of a value, by turns: an instance is asked `asBoolean`, and a string with parts is asked for its text.
//!
//! How it is stated: `specs/Truths.antt` says the truth of each value, and whether it is asked first.
//!
//! The promise: `start_truth` and `resume_truth` give the first turn of a walk, and those behind answers: the truth, or who is asked
//! what. Nothing is written, and no object is made.
//!
//! Where to begin: `specs/Truths.antt`, `truth.rt`.
#![tactic(auto)]

mod truth;

pub use truth::{TruthTurn, TruthWalk, resume_truth, start_truth};
