//! The order of values: which keys have an order among themselves, and elements in the order of their keys.
//!
//! How it is stated: `specs/Judged.antt` says which keys can be ordered, or which two classes bar it. `specs/Ranks.antt` says what comes
//! before what: null first, then numbers by their values, texts by their characters, or false before true. `specs/Sorted.antt` says what
//! elements are in order, an element before those that it ties with and that stood behind it, and which one is the greatest or the
//! smallest, the first of those that tie.
//!
//! The promise: `judge` tells whether keys can be ordered. `Rank::plain` is the place of a key in the order that needs no text; any
//! other key is ranked by its text. A `Ranking` has elements with their ranks, in order: `sorted` gives the elements in the order of
//! their ranks, and `extreme` the first greatest or smallest one. No heap is written, and nothing is asked.
//!
//! Where to begin: `specs/Sorted.antt`, `ranking.rt`.
#![tactic(auto)]

mod judged;
mod rank;
mod ranking;

pub use judged::{Judged, Keyed, Kind, judge, kind_of};
pub use rank::{Rank, compared};
pub use ranking::{Ranked, Ranking};
