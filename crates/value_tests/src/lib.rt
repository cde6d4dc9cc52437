//! Tests of values and what holds them: numbers, texts, the heap, built-in classes and rows, characters, searches.
//!
//! They stand in a crate of their own, since tests within a crate prove that crate once more.
//!
//! Where to begin: the module that has the name of the crate that it tests, without `gv_`.
#![tactic(auto)]

#[cfg(test)]
mod base;
#[cfg(test)]
mod chars;
#[cfg(test)]
mod classes;
#[cfg(test)]
mod heap;
#[cfg(test)]
mod natives;
#[cfg(test)]
mod rows;
#[cfg(test)]
mod search;
