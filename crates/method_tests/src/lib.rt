//! Tests of the built-in methods of lists, maps and Strings: tables of a call, and what it gives, throws, writes and spends.
//!
//! They stand in a crate of their own, since tests within a crate prove that crate once more.
//!
//! Where to begin: `lists.rt`, `maps.rt`, `strings.rt`, each with a folder; its `world.rt` makes the heap that the tables speak of.
#![tactic(auto)]

#[cfg(test)]
mod lists;
#[cfg(test)]
mod maps;
#[cfg(test)]
mod strings;
