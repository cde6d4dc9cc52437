//! Tests of the walks over values: their texts, their truth, whether two are equal, and methods that hand them to a closure. They are
//! tables of a value, the questions on the way, each with its answer, and the end.
//!
//! They stand in a crate of their own, since tests within a crate prove that crate once more.
//!
//! Where to begin: `texts.rt`, `truths.rt`, `equals.rt`, `folds.rt`; the objects that the tables speak of are those of walk_world.
#![tactic(auto)]

#[cfg(test)]
mod equals;
#[cfg(test)]
mod folds;
#[cfg(test)]
mod tables;
#[cfg(test)]
mod texts;
#[cfg(test)]
mod truths;
