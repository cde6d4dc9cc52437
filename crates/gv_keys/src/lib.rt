//! What tells a member of a class from others: what it is, its name, and the types of its parameters.
//!
//! How it is stated: contracts see a `Keys` as the list of the keys of a class's members, each once, in the order in which they
//! came. `specs/Keys.antt` says what a member's key is, and when it is among others.
//!
//! The promise: `put` puts a key behind the others where it is new, and says whether it was; it takes about the time of reading
//! the key, however many there are.
//!
//! Where to begin: `specs/Keys.antt`. Methods with defaults stand among the members as all the methods that they make.
#![tactic(auto)]

mod keys;

pub use keys::{Keys, key};
