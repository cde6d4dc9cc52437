//! Elements that methods go over one by one: those of a list as they were at the start, those of a range, and numbers up to a last one
//! or down to it.
//!
//! How it is stated: `Elements` is seen as the list of the elements that are still to come (`specs/Elements.antt`). Numbers are
//! nowhere written out.
//!
//! The promise: `Elements::at` are the elements of a list or a range in the heap, `upto` and `downto` the numbers between two; `pop`
//! takes the first one off.
//!
//! Where to begin: `elements.rt`.
#![tactic(auto)]

mod elements;

pub use elements::Elements;
