//! What built-in methods gather by keys before they make a map of it.
//!
//! How it is stated: a `Gathered` is seen as the list of the entries that a new map is to have, and `Groups` as the list of the groups
//! that it is to have, each with its key, how the key is shown, and the elements with that key. Both lists stand in the order in which
//! their keys came. `specs/Groups.antt` says where an element goes, and `specs/Making.antt` what is made and what it costs.
//!
//! The promise: `put` of `Gathered` does what a map does that an entry is put into, and `add` of `Groups` puts an element at the end
//! of its key's group. `make` makes the new map, and before it the new list of each group, for the price of all of them; where that
//! isn't left, nothing is made.
//!
//! Where to begin: `specs/Groups.antt`, `specs/Making.antt`, then `gathered.rt` and `groups.rt`.
#![tactic(auto)]

mod gathered;
mod groups;
mod price;

pub use gathered::Gathered;
pub use groups::{Groups, Members};
