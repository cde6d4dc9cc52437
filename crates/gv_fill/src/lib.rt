//! Reading the closures that expressions left unread.
//!
//! How it is stated: an unread closure has the places of its inner tokens, and gv_grammar's `filled` is
//! the expression with each replaced by what a function gives for its places. `specs/Filled.antt` has
//! the same for each part of an expression, and what a function here ensures.
//!
//! The promise: `fill` answers the expression with each closure read, or refuses, and then the tokens of
//! one of its closures have no reading. What reads the tokens of a closure is a function value that
//! `Filler` carries, for fewer tokens than the caller has.
//!
//! Where to begin: `fill.rt`. A new form of expression is an arm there.
#![tactic(auto)]

mod fill;

pub use fill::Filler;
