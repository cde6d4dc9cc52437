//! Superclass circles: the classes of a script that are among their own superclasses.
//!
//! How it is stated: `specs/Circles.antt` says where going up 2 ^ r times from a class comes, and which class of those met on the
//! way comes first. A class begins a circle if that is the class itself, after more steps than there are classes: it is met again,
//! and no class of its circle comes before it. A class that only leads into a circle never begins one.
//!
//! The promise: `first_of_circles` gives the first refusal of the classes of a file that begin a circle, or one that was found
//! before where that stands first; or it wants memory. It takes time in proportion to the classes, however long their chains are.
//!
//! Where to begin: `specs/Circles.antt`, then `jumps.rt`, which doubles the steps of all classes at once, as `specs/Jumps.antt` says.
#![tactic(auto)]

mod circles;
mod jumps;

pub use circles::first_of_circles;
