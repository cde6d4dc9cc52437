//! Units: the scripts of all files on their way from trees to what is emitted and run, in a type for each phase behind them.
//!
//! How it is stated: a unit's contracts name its parts: the table of names, the trees by their files' numbers, and what is known behind
//! its phase. `specs/Phases.antt` says what each phase makes of the parts before it and what it refuses; `specs/Units.antt` what of a
//! unit stays.
//!
//! The promise: `Unit::new` is behind parsing. Its `advance` adds the accessors of properties and gathers the classes; the next one
//! goes on exactly where nothing of the scripts is refused, and else answers the first refusal of the first file that has one; the
//! third tells what each name means. A unit is spent by its `advance`. `resolve` does the last two for one script.
//!
//! Where to begin: `unit.rt`, then `conversion.rt`, `analysis.rt` and `canonicalization.rt`.
#![tactic(auto)]

mod analysis;
mod canonicalization;
mod conversion;
mod error;
mod known;
mod resolution;
mod unit;

pub use error::{PhaseError, ResolveError};
pub use known::Known;
pub use resolution::resolve;
pub use unit::{Analysed, Canonical, Converted, Parsed, Unit};
