//! The run of a unit: its code is emitted and run, and what comes of it is what the unit means.
//!
//! How it is stated: gv_meaning says what a unit does, without code (`meaning`); `specs/Report.antt` says what is told of the answer to
//! which a run comes: what was printed, and how it ended.
//!
//! The promise: `run_unit` gives the report of what the unit means in the world, or answers want of memory. Here the emitter's
//! promise, that the code is right, meets the machine's, that a run is the steps of its code.
//!
//! Where to begin: `run_unit.rt`, then `report.rt` beside `specs/Report.antt`.
#![tactic(auto)]

mod report;
mod units;

pub use report::{Ending, Report};
pub use units::run_unit;
