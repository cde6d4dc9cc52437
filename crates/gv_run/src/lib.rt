//! Runs code in a world, one instruction a step, up to the end.
//!
//! How it is stated: gv_meaning says what code does, by `step` from each state to the next. Here the running body is a `Running`, and
//! the bodies that wait, the depth that is left and the world are a `Control`, which is changed in place; `state_of`
//! (`specs/States.antt`) puts them together as a state. Each instruction is a function whose clause is that instruction's arm of the
//! code meaning.
//!
//! The promise: `run` gives the end to which the steps of the code come, and the world that they leave, or answers want of memory.
//! It asks that the code goes forward (gv_code's `specs/Forward.antt`), so that every run ends; no instruction needs anything of its
//! operands, its variables or its place. Nothing recurses on the native stack. A place in code and a depth that can't be counted
//! are want of memory.
//!
//! Where to begin: `state.rt` beside `specs/States.antt`, then `runs.rt` and `instructions.rt`; `frames.rt` has how bodies begin, wait
//! and end. Of the proof, `proofs/Left.antt` has what a turn of the loop keeps, and `proofs/Limit.antt` after how many steps the run
//! is over: that number is the loop's measure. A new instruction is an arm of `act` and a function.
#![tactic(auto)]

mod frames;
mod instructions;
mod operands;
mod runs;
mod state;
mod variables;

pub use runs::run;
