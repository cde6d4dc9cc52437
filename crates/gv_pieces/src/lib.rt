//! The text of a script's tree as pieces, each of which the lexer reads as one spelling, or as the characters of a string.
//!
//! How it is stated: `specs/Pieces.antt` has the pieces and the text of each. `specs/Words.antt` and `specs/Pieced.antt` say for each
//! form of the grammar which pieces it puts behind those before it, definition by definition as gv_print says which text.
//!
//! The promise: `printed_as_pieces` says that the text of a script is that of its pieces, one behind the other, and `symbols_spelled`
//! that the text of a symbol or keyword is the one that the table of spellings has for it.
//!
//! Where to begin: `specs/Pieces.antt`.
#![tactic(auto)]

mod laws;

pub use laws::{printed_as_pieces, symbols_spelled};
