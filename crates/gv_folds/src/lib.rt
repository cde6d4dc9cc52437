//! The built-in methods that hand values to a closure one by one, by turns: `each`, `eachWithIndex`, `collect`, `find`, `findAll`, `any`,
//! `every`, `inject` and `count` of lists and ranges, `times`, `upto` and `downto` of numbers, and those of maps that give no map.
//!
//! How it is stated: a `Fold` has its closure, what it hands out next (`Source`), and what it keeps of the answers (`Keeping`).
//! `specs/Sources.antt` says what is handed out, and `specs/Folds.antt` what each answer does: the answers are taken in order, over
//! the elements as they were at the start.
//!
//! The promise: `go` gives the first turn of a fold, and `resume_fold` those behind answers: which values the closure is called with,
//! who is asked for the truth of an answer, or the value that the method answers. The heap changes by the entries that are handed out
//! and the list that is answered, each for its price, and by nothing else; where its price isn't left, nothing is done.
//!
//! Where to begin: `specs/Folds.antt`, `fold.rt`.
#![tactic(auto)]

mod ends;
mod fold;
mod rows;
mod source;
mod turn;

pub use fold::{Fold, Keeping, Pending};
pub use rows::{list_fold, map_fold, range_fold, times_fold};
pub use source::{Args, Handed, Handing, Source, next};
pub use turn::{FoldTurn, go, resume_fold};
