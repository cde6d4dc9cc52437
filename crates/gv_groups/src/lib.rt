//! The built-in methods that hand values to a closure one by one and make a map of what it answers, by turns: `groupBy` of lists and
//! ranges, `collectEntries` of lists, ranges and maps, and `findAll` of maps.
//!
//! How it is stated: a `Group` has its closure, what it hands out next (`Source` of gv_folds), and what it gathers of the answers
//! (`Gathering`). `specs/Gathering.antt` says what each answer adds, and `specs/Groups.antt` what each turn comes to: the answers are
//! taken in order, over the elements as they were at the start.
//!
//! The promise: `go_group` gives the first turn of such a method, and `resume_group` those behind answers: which values the closure is
//! called with, who is asked for the text of a key or the truth of an answer, what is thrown, or the new map. The heap changes by the
//! entries that are handed out and by what is made at the end, each for its price, and by nothing else; where its price isn't left,
//! nothing is made.
//!
//! Where to begin: `specs/Gathering.antt`, `specs/Groups.antt`, `group.rt`.
#![tactic(auto)]

mod copies;
mod ends;
mod gather;
mod group;
mod keys;
mod rows;
mod throws;
mod turn;

pub use group::{Gathering, Group, Pending};
pub use rows::{collect_entries, collect_map_entries, find_all_entries, group_by};
pub use turn::{GroupTurn, go_group, resume_group};
