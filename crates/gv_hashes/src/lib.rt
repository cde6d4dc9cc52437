//! The hash of a value, by turns: an instance is asked `hashCode`, and strings with parts are asked for their texts.
//!
//! How it is stated: `specs/Rules.antt` says how hashes are joined: of a text, of elements, of a map's entries. A walk has things still
//! to hash (`Todo`), the first one first, and the hashes that it has, the last one first. `specs/Hashes.antt` says what each thing does,
//! and `until_asked` goes on up to the hash or the next question. `specs/Laws.antt` says without a walk which hash a value has where
//! nothing is asked.
//!
//! The promise: `start_hash` and `resume_hash` give the first turn of a walk, and those behind answers: the hash, who is asked what, or
//! an answer to `hashCode` that is no Integer. Nothing is written, and no object is made. Before a list, a range or a map that lies in
//! another value is entered, the walk asks `#enter` of it, and so it does of a string with parts there; `inside` says how many of these
//! it is in. Values may lie in each other as deep as they like: what is still to hash is a list, and nothing recurs.
//!
//! Where to begin: `specs/Hashes.antt`, `walk.rt`.
#![tactic(auto)]

mod joins;
mod opened;
mod step;
mod texts;
mod todo;
mod walk;

pub use todo::{Stage, Todo};
pub use walk::{HashTurn, HashWalk, resume_hash, start_hash};
