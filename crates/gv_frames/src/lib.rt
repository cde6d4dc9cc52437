//! The turns of the built-in methods that call script code, and of the walks over values, as one type: what a method that goes by turns
//! waits for, and what its next turn is.
//!
//! How it is stated: a `WalkFrame` is one of the methods or walks of the crates below, between two turns. `specs/Turns.antt` says of each
//! what its turn is as a `Turn`: a call, by the name of what is called, its receiver and its arguments, or an end. `specs/Frames.antt`
//! says what `resume` comes to: the turn that the frame's own crate gives behind the answer, with its change of the heap and no other.
//!
//! The promise: `resume` gives exactly that turn, or says that memory is wanted. It calls nothing.
//!
//! Where to begin: `frame.rt`, `next.rt`.
#![tactic(auto)]

mod called;
mod frame;
mod next;
mod turns;

pub use called::Called;
pub use frame::{Turn, WalkFrame};
pub use next::resume;
