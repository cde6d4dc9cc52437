//! Where a text stands in a text.
//!
//! How it is stated: by characters, that is Unicode scalar values (`specs/Search.antt`): a text is the list of its
//! characters, and a place is a number of them. All is said of the list of the places at which a part stands. The clauses
//! give the bytes of texts to the same definitions (`specs/Texts.antt`).
//!
//! The promise: each function gives exactly what the definition of its name says. A `String` is an error only where memory
//! is wanting. Nothing is searched twice: the time is linear in the text and the part, but for `count_places`.
//!
//! Where to begin: `specs/Search.antt`, then `cut.rt`: it cuts a text where a part stands, and all else goes from cut to cut.
#![tactic(auto)]

mod cut;
mod places;
mod rewrite;

pub use places::{contains, count_places, ends_with, first_place, last_place, starts_with};
pub use rewrite::{replaced, without_first};
