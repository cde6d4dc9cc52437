//! How the lexer reads the pieces of a printed script: each piece between strings is the longest spelling at its place.
//!
//! How it is stated: `specs/Read.antt` says what it means that a text is read as a spelling, and what may follow it.
//!
//! The promise: `blanks_read`, `line_ends_read`, `symbols_read`, `quotes_read`, `words_read` and `numbers_read` are
//! these laws, one for each kind of piece. A number is read as what the table's `judge` says of its text.
//!
//! Where to begin: `specs/Read.antt`.
#![tactic(auto)]

mod laws;

pub use laws::{blanks_read, line_ends_read, numbers_read, quotes_read, symbols_read, words_read};
