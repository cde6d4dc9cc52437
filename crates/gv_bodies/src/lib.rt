//! What refuses a script for what its bodies say: a name declared where it is held already, a `break` or `continue` without
//! anything to leave, a `this` or `super` where there is none.
//!
//! How it is stated: `specs/Bodies.antt` goes through the script's events (gv_events) and says what is known after each one: the
//! names held, the scope there and those around it, and the first refusal so far.
//!
//! The promise: `first_of_bodies` gives the first refusal of these, or one that was found before where that stands first. It takes
//! time in proportion to the events.
//!
//! Where to begin: `specs/Bodies.antt`, then `watch.rt`, which follows it line by line.
#![tactic(auto)]

mod bodies;
mod frame;
mod held;
mod watch;

pub use bodies::first_of_bodies;
