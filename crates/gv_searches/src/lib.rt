//! The built-in methods that look for a value among others: `contains`, `indexOf`, `remove`, `count` and `isCase` of lists and ranges,
//! and `containsValue` of maps, by turns; and `remove` of a list at a place.
//!
//! How it is stated: a `Search` has the value that is wanted, the elements behind the one that is compared, the place of that one, and
//! what equal ones are for (`Seeking`). `specs/Searches.antt` says what it comes to: the elements, as they were at the start, are
//! compared with the wanted value one by one, in order, each as the left side. `specs/Places.antt` says what is removed at a place.
//!
//! The promise: `list_search` and `map_search` give the first turn of a search, and `resume_search` those behind answers: who is asked
//! what, or the value that the method answers. Nothing is written but the list that an element is taken out of, and no object is made.
//! `searching` is the law of what the methods answer where nobody is asked: whether one is equal, the first place, and how many.
//!
//! Where to begin: `specs/Searches.antt`, `search.rt`.
#![tactic(auto)]

mod ends;
mod laws;
mod places;
mod search;
mod starts;
mod turn;
mod walk;

pub use laws::searching;
pub use places::remove_at;
pub use search::{Search, Seeking};
pub use starts::{list_search, map_search};
pub use turn::{SearchTurn, resume_search};
