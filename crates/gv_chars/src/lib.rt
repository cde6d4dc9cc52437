//! What is done with texts by their characters: counted, taken from their places, turned, trimmed, repeated, padded,
//! compared, read as integers, and cut into characters and pieces.
//!
//! A character is a Unicode scalar value, and places count from 0. The functions take texts and give texts or numbers:
//! no heap and no price stands here.
//!
//! How it is stated: a text is seen as the list of its characters, `chars text`. `specs/Chars.antt` says what is done
//! with such a list. A text that is made is stated by its bytes, as `encode_utf8_all` of the characters that it has to
//! have.
//!
//! The promise: each function gives exactly what the definition of its name says, or says that memory is out.
//!
//! Time is not proved. Each function goes over its texts and what it makes a fixed number of times; `pieces` also goes
//! over the separators for each character.
//!
//! Where to begin: `specs/Chars.antt`, then `steps.rt`. Its two functions take a character off either end, and nearly
//! every loop goes over a text by them: its invariant says that what is left gives what the whole gives.
#![tactic(auto)]

mod copies;
mod ends;
mod integers;
mod order;
mod places;
mod split;
mod steps;

pub use copies::{padded_left, padded_right, repeated};
pub use ends::trimmed;
pub use integers::integer_in;
pub use order::compared;
pub use places::{char_at, char_count, characters, part, picked, reversed, single};
pub use split::pieces;
