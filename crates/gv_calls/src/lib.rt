//! What a call runs: the look-up of a method by its name in the world as it is, the built-in methods, and the exceptions that a rule
//! throws.
//!
//! How it is stated: `call_of` of gv_meaning says what a call runs and which world it leaves. In code the world is changed in place,
//! so `Chosen` and `Told` leave it out; `specs/Told.antt` puts it back.
//!
//! The promise: `call` does exactly what `call_of` says, or answers want of memory; of the world that it leaves then nothing is
//! said. A call needs nothing of the world: an object, a class or a name that isn't there has its answer as well. No call enters a
//! body yet.
//!
//! Where to begin: `told.rt`, then `calls.rt` beside `specs/Calls.antt` of gv_meaning. Of the built-in methods plus, minus, multiply
//! and compareTo of numbers are built, and println; a further one is a case of `run_row` in `methods.rt`, as in `row_answer` there.
//! `rows.rt` is the look-up, which goes by texts; what is faster has to answer the same.
#![tactic(auto)]

mod calls;
mod kinds;
mod messages;
mod methods;
mod raise;
mod rows;
mod takes;
mod told;

pub use calls::call;
pub use told::{Chosen, Told};
