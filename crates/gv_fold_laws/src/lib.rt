//! What the methods come to that hand values to a closure: laws of the turns of gv_folds.
//!
//! How it is stated: `specs/Runs.antt` says how one outcome of a fold leads to another by calls of the closure, each with its arguments,
//! the heap that it leaves and what it answers. `specs/Methods.antt` says of each method which calls these are, and what it comes to.
//!
//! The promise: `gathering` and `judging` are these laws. Whatever the closure does to the heap, `collect` ends with the list of its
//! answers in order, `inject` hands each answer on, `findAll` ends with the elements whose answers are true, and `any`, `every` and
//! `find` end at the first answer that tells.
//!
//! Where to begin: `specs/Methods.antt`.
#![tactic(auto)]

mod laws;

pub use laws::{gathering, judging};
