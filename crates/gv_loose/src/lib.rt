//! What refuses a script that isn't the first for its statements: only the first file's script may have some.
//!
//! How it is stated: `specs/Loose.antt` says where a statement's first token stands, down the left sides of its expression, and which
//! statement of a script comes first.
//!
//! The promise: `first_of_loose` gives that refusal, at the statement's first token, or one that was found before where that stands
//! first.
//!
//! Where to begin: `specs/Loose.antt`, then `loose.rt`.
#![tactic(auto)]

mod loose;
mod places;

pub use loose::first_of_loose;
