//! `sum`, `join` and `flatten` of lists and ranges, by turns.
//!
//! How it is stated: a `Join` is a method between two turns, over the elements as they were at the start. `specs/Sums.antt` says what a
//! sum comes to, `specs/Texts.antt` how the texts of the elements are said with the separator between, and `specs/Flat.antt` how
//! elements that are lists or ranges are entered. `specs/Joins.antt` has the turns. `specs/Laws.antt` says without turns what `join`
//! and `flatten` come to where nothing is asked.
//!
//! The promise: `start_sum`, `start_join` and `start_flatten` give the first turn, and `resume_join` those behind answers: which value
//! is asked `plus` of which, who is asked what, or what the method answers. The heap changes by the new String or the new list, for
//! its price, and by nothing else; where its price isn't left, nothing is done. Lists may lie in each other as deep as they like: what
//! is still to do is a list, and nothing recurs.
//!
//! Where to begin: `specs/Joins.antt`, `turn.rt`.
#![tactic(auto)]

mod flat;
mod join;
mod laws;
mod sum;
mod texts;
mod turn;

pub use join::{Flattening, Join, Joining, Todo};
pub use laws::{flattening, joining};
pub use turn::{JoinTurn, resume_join, start_flatten, start_join, start_sum};
