//! The source meaning of core trees, and the code meaning: what a run does, said twice.
//!
//! It has types and definitions, and little code that runs. The machine above it (gv_machine) says in its contracts that its steps
//! are those of the code meaning, and gv_written has the law that leads from one to the other.
//!
//! How it is stated: `specs/World.antt` has the world of a run, and each step that is no jump: it is one definition, which both
//! meanings use. Ticks are taken by `paid` alone, and cells by `making` and where a shared variable is declared; a price that
//! exceeds what is left ends the run. `specs/Calls.antt` says what a call runs, with the look-up of its method in the world as it is.
//! `specs/Meaning.antt` is the source meaning, by recursion on the tree: `value_of` and `outcome_of` are open in what a call does
//! (`Runner`), and `level` closes them by the depth that is left. A scope is the list of a body's variables, the oldest first; it is
//! threaded through, with the world, and both come back with each way in which a tree ends. `specs/Machine.antt` is the code meaning:
//! `step` leads from each state to the next, and an end stays.
//!
//! The promise: both meanings are total, and each is plain computation: no fuel, no choice, no order left open. `opening` gives the
//! world in which a script begins (`specs/Opening.antt`).
//!
//! Where to begin: `world.rt` beside `specs/World.antt`, then `specs/Meaning.antt`. A new form of tree is a line in `value_of` or
//! `outcome_of`; a new instruction is a line in `act`; a new step that is no jump is a definition that both cite.
#![tactic(auto)]

mod frame;
mod laws;
mod open;
mod output;
mod world;

pub use frame::Frame;
pub use laws::examples;
pub use open::opening;
pub use output::Output;
pub use world::{Cell, Why, World};
