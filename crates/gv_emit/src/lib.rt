//! The written code of core trees, emitted.
//!
//! How it is stated: `gv_written` says which piece each statement is, which body each source, and which bodies a unit has
//! (`code_of`). The functions here build pieces in the order in which those definitions join them.
//!
//! The promise: `emit` gives the code of a unit, its bodies by their numbers, of which the first starts the run. The code is right: in
//! each world its run comes to what the unit means, and stays there (`IsRight`). Each of its jumps back leads to where a tick is taken,
//! and each handler behind what it covers (`Forward`). It fails only where memory is wanting; that is so, too, where a body has more
//! variables than can be counted.
//!
//! Where to begin: `stmts.rt`, whose arms are the forms, and `pieces.rt`, which has a function for each form that is made of others;
//! then `unit.rt`. A new form is a clause of `stmt_piece`, an arm, and a function of `pieces.rt`.
#![tactic(auto)]

mod pieces;
mod stmts;
mod unit;

pub use unit::emit;
