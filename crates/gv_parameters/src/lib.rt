//! How many parameters a closure has, where it may be made of others.
//!
//! How it is stated: `specs/Parameters.antt`. A curried closure has the parameters that are left, a composition those of the closure
//! that runs first, and a closure of a method has one. A closure is made of closures that are made before it, so an object's number
//! says how many can lie in one another.
//!
//! The promise: `has_parameters` says whether a closure has at least so many. It writes nothing, and doesn't recur.
//!
//! Where to begin: `parameters.rt`.
#![tactic(auto)]

mod parameters;

pub use parameters::has_parameters;
