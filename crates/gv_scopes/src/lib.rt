//! What each name of a script means where it stands: a variable, a field of its class, a class, a property; which bodies the script
//! has, and which variables its closures capture.
//!
//! How it is stated: `specs/Scopes.antt` goes through the script's events (gv_events) and says what is known after each one
//! (`Naming`): the variables, bodies and meanings so far, the names in scope, the scope there and those around it.
//!
//! The promise: `resolved_of` gives the variables in the order in which they are declared, the bodies in the order in which they
//! begin, and the meanings in reading order, so that what goes over the tree in that order finds each in its turn. `shared` says
//! whether a closure captures a variable. It takes time in proportion to the events, times the scopes that are open where a
//! closure uses a variable from around it.
//!
//! Where to begin: `resolved.rt` and `specs/Scopes.antt`, then `resolver.rt`, which follows it line by line.
#![tactic(auto)]

mod fields;
mod frame;
mod known;
mod numbers;
mod resolved;
mod resolver;
mod scopes;

pub use known::Known;
pub use numbers::Numbers;
pub use resolved::{Body, Meaning, Resolved, Variable, shared};
pub use scopes::resolved_of;
