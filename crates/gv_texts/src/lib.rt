//! The text of a value, by turns: what script code says of itself is asked for, and the walk goes on with the answer.
//!
//! How it is stated: a walk has said a text, and has things still to say (`Todo`), the first one first. `specs/Texts.antt` says what
//! each value says of itself: a text at once, the things in it, or that it is asked. `until_asked` goes on up to the next question,
//! and `started` and `resumed` are a walk's first turn and those behind answers.
//!
//! The promise: `start_text` and `resume_text` give that turn: the text, or who is asked what. Nothing is written, and no object is
//! made. An instance is asked `toString`, a part of a string that is evaluated each time is called, and before a list, a map, a range
//! or a string with parts that stands within another value the walk asks `#enter`; `inside` says how many of these it is in. Values
//! may lie in each other as deep as they like: what is still to say is a list, and nothing recurs.
//!
//! Where to begin: `specs/Texts.antt`, `walk.rt`.
#![tactic(auto)]

mod opened;
mod question;
mod said;
mod todo;
mod walk;

pub use question::Question;
pub use todo::{Mark, Pending, Todo};
pub use walk::{TextTurn, TextWalk, resume_text, start_inner_text, start_text};
