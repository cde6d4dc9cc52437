//! Putting elements in place of all those of a list.
//!
//! How it is stated: `Refills` (`specs/Refill.antt`) says what a call makes of the heap, by `with_list` and `pay` of gv_heap.
//!
//! The promise: `refill` gives a list other elements, in order, and pays a cell for each by which it grows. Where the cells aren't
//! left, or the object is no list, nothing happens.
//!
//! Where to begin: `specs/Refill.antt`, `refilling.rt`.
#![tactic(auto)]

mod refilling;

pub use refilling::refill;
