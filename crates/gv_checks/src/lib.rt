//! Whether a script that has a tree is refused, and for what: of its imports and annotations, its classes and their members, its
//! types, its names, its ways out, and its `this` and `super`, the first that may not stand where it stands.
//!
//! How it is stated: `refusal_of` (`specs/Checks.antt`) puts together what gv_tops, gv_repeats, gv_circles, gv_types and gv_bodies
//! say; the order is that of gv_refusals.
//!
//! The promise: `first_refusal` gives that refusal, or None where there is none. `declared_classes` gives the classes of scripts,
//! by which it goes. `Known::new` gives the names that the rules speak of, and puts those that are new behind the table's.
//!
//! Where to begin: `specs/Checks.antt`. A further check takes the first refusal so far and gives the first one then.
#![tactic(auto)]

mod checks;
mod classes;
mod known;

pub use checks::first_refusal;
pub use classes::declared_classes;
pub use known::Known;
