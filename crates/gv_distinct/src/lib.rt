//! The methods `minus` and `unique` of lists, by turns: those that compare elements with other values and leave some out.
//!
//! How it is stated: `specs/Distinct.antt`. The elements as they were at the start are gone through in order. Each is compared with the
//! values beside it in order, up to the first equal one: `against_all`; and kept where none is equal: `until_asked`.
//!
//! The promise: `start_minus`, `start_unique` and `resume_distinct` give the first turn of a method, and those behind answers: who is
//! asked what about two values, or what the method answers. Nothing is written before the end: then `minus` makes a new list of what
//! was kept, for its price, and `unique` puts it in place of all elements of the list, as `refill` of gv_refill does. `laws` says what
//! they come to where nothing is asked.
//!
//! Where to begin: `specs/Distinct.antt`, `specs/Laws.antt`, `distinct.rt`.
#![tactic(auto)]

mod compare;
mod distinct;
mod ends;
mod law;
mod turn;

pub use distinct::{Distinct, Dropping, Selection};
pub use law::laws;
pub use turn::{DistinctTurn, resume_distinct, start_minus, start_unique};
