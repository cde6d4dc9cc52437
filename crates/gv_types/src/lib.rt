//! Refusals of the names of classes: of a written type that no class has the name of, and of what a class can't extend or implement.
//!
//! How it is stated: `types_refused` of `specs/Types.antt` is the first refusal of the whole, put together from those of each written
//! type, which the events (gv_events) of a script tell, and of each class's head. `may_extend` says which classes can be extended.
//!
//! The promise: `first_of_types` gives exactly that refusal, or one that was found before where that stands first. It takes no memory.
//!
//! Where to begin: `specs/Types.antt`, whose definitions have the names of the functions that follow them.
#![tactic(auto)]

mod heads;
mod names;
mod types;

pub use types::first_of_types;
