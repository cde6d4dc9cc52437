//! Whether two values are equal, by turns: an instance on the left is asked `equals`, and strings with parts are asked for their texts.
//!
//! How it is stated: `specs/Equals.antt` says how two values are compared: at once, by their texts, by what lies in them, or by what the
//! left one answers. A walk has pairs of values still to compare, the first one first; `until_told` goes on up to the first pair that
//! isn't equal, or the next question.
//!
//! The promise: `start_equals` and `resume_equals` give the first turn of a walk, and those behind answers: whether the values are equal,
//! or who is asked what. Nothing is written, and no object is made. Before two lists, ranges or maps that lie in others are compared,
//! the walk asks `#enter` of the left one, and of each string with parts that lies in another value; `inside` says how many it is in.
//! Entering runs no script code: sizes are compared before it, and not again. Values may lie in each other as deep as they like: what is
//! still to compare is a list, and nothing recurs.
//!
//! Where to begin: `specs/Equals.antt`, `walk.rt`.
#![tactic(auto)]

mod compared;
mod pairs;
mod stage;
mod step;
mod walk;

pub use stage::{Same, Stage};
pub use walk::{EqualTurn, EqualWalk, resume_equals, start_equals};
