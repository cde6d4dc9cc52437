//! The built-in methods that come to one call, and answer what that answers: `call` of closures, `with`, `use`, `newInstance` of classes,
//! `invoke` of methods of metaclasses.
//!
//! How it is stated: `specs/Calling.antt` says of each which call it asks for. `with` first makes a copy of its closure whose delegate is
//! the receiver, and comes first. `use` opens classes as categories around the call of its last argument; which arguments it takes is
//! said there too.
//!
//! The promise: each function gives exactly that turn, with the frame that answers what the call answers. The heap changes by the copy
//! that `with` makes, for its price, and by nothing else; where its price isn't left, nothing is done.
//!
//! Where to begin: `specs/Calling.antt`, `calling.rt`.
#![tactic(auto)]

mod calling;
mod opening;

pub use calling::{one_call, start_with};
pub use opening::start_use;
