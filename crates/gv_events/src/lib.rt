//! What a script says in reading order: where scopes begin and end, which names are declared in them, which classes are named, and
//! where `break`, `continue`, `this` and `super` stand. What refuses a script for its names reads this list, and no trees.
//!
//! How it is stated: `specs/Events.antt` says for each form of the grammar what it puts behind what was said before it. A form
//! that isn't named there says what its parts say, from left to right. Trees are read as deep as `MOST_LEVELS`, which no tree
//! that was parsed exceeds.
//!
//! The promise: `events_of` gives that list, or wants memory. A name is declared behind its own initial value; a scope is open
//! from its `Open` to its `Close`, and scopes are closed in the opposite order.
//!
//! Where to begin: `event.rt`, `specs/Events.antt`, then `reader.rt`, which follows it line by line.
#![tactic(auto)]

mod event;
mod names;
mod reader;
mod script;
mod types;
mod words;

pub use event::{Event, Scope};
pub use script::{MOST_LEVELS, events_of};
pub use words::Words;
