//! The methods that come to the text of a value, by turns: `println`, `print`, `toString`, and `plus`, `leftShift` and `minus` of Strings.
//!
//! How it is stated: a `Saying` is a text walk and what is done with the text (`Then`). `specs/Says.antt` says what each comes to.
//!
//! The promise: `start_saying` and `resume_saying` give the first turn, and those behind answers: who is asked what, the text that is
//! printed, or the new String. The heap changes by that String, for its price, and by nothing else; where its price isn't left, nothing
//! is done.
//!
//! Where to begin: `specs/Says.antt`, `saying.rt`.
#![tactic(auto)]

mod saying;

pub use saying::{SaidTurn, Saying, Then, resume_saying, start_saying};
