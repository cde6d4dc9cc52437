//! Tests of what is said of trees before they run: classes and members, accessors, what names mean, and the refusals of each
//! phase.
//!
//! They stand in a crate of their own, since tests within a crate prove that crate once more.
//!
//! Where to begin: `phases.rt` and `checks.rt`, tables of scripts; the other modules each have the name of the crate that they
//! test, without `gv_`, and make its arguments by hand.
#![tactic(auto)]

#[cfg(test)]
mod accessors;
#[cfg(test)]
mod bodies;
#[cfg(test)]
mod checks;
#[cfg(test)]
mod circles;
#[cfg(test)]
mod declare;
#[cfg(test)]
mod keys;
#[cfg(test)]
mod loose;
#[cfg(test)]
mod phases;
#[cfg(test)]
mod refusals;
#[cfg(test)]
mod repeats;
#[cfg(test)]
mod scopes;
#[cfg(test)]
mod types;
