//! What a script declares a second time: a class of a name that a class has, a field of a name that a field of its class has, a
//! method or a constructor with the name and the parameters' types of one in its class.
//!
//! How it is stated: `specs/Repeats.antt` goes through the declared classes, and through the members of each, and says of each one
//! whether the same stood before it.
//!
//! The promise: `first_of_repeats` gives the first of these refusals in one file, or one that was found before where that stands
//! first. It takes time in proportion to the classes and members.
//!
//! Where to begin: `specs/Repeats.antt`. Methods with defaults stand among the members as all the methods that they make.
#![tactic(auto)]

mod repeats;

pub use repeats::first_of_repeats;
