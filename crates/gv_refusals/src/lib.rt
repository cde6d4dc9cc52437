//! The order of refusals: of those that a phase finds, the first one is reported.
//!
//! How it is stated: `specs/Order.antt` says when one refusal stands before another: by file, then by line, by column, and at one
//! place by the number of its kind.
//!
//! The promise: `earlier` gives the first of two. A phase that hands each refusal that it finds to `earlier` ends with the first.
//!
//! Where to begin: `specs/Order.antt`.
#![tactic(auto)]

mod order;

pub use order::earlier;
