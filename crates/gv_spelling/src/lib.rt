//! The table of spellings: at a place of a text, the one longest spelling and what it stands for.
//!
//! A text is a list of Unicode scalar values. A lexer goes over it spelling by spelling, and keeps
//! what this crate does not know: places, names, what is open, whether an operand has just ended,
//! and what may stand only at a file's start (a first line that begins with `#!`, and U+FEFF).
//!
//! How it is stated: `specs/Table.antt` says of a whole spelling what it stands for, by `between` for
//! what stands between strings (a `Lexeme`) and by `inside` for what stands in a string (a `Unit`).
//! Faults are spellings too: `09`, a comment without an end, a backslash that begins no escape. So
//! each text that is not empty begins with a spelling. `specs/Longest.antt` says which one is meant:
//! the text begins with it, and with no longer one.
//!
//! The promise: `between` and `inside` give the longest spelling of the whole table, and its length.
//!
//! A string is no single spelling. Its opening quote is one, and then each character, escape, `${`,
//! `$a.b` and the closing quote.
//!
//! Where to begin: `specs/Table.antt`, then `kinds.rt`, `next.rt` and `strings.rt`. A new symbol,
//! keyword or refused word is a variant in `kinds.rt` and a row in `table.rt`, and no proof; a
//! symbol has at most four characters. The rows are the definition itself, so reading_tests compares
//! them with examples.
#![tactic(auto)]

mod classes;
mod kinds;
mod next;
mod number;
mod strings;
mod table;

pub use kinds::{Fault, Keyword, Lexeme, Quote, RefusedWord, Symbol, Unit};
pub use next::between;
pub use strings::inside;
pub use table::word_of;
