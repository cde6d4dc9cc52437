//! From a file's bytes to its tokens, or to its first refusal.
//!
//! A string is no single token: `Text` is a piece of it. The tokens of its parts stand between the pieces in the one list,
//! each part with an `End` of its own, so nothing nests.
//!
//! How it is stated: `specs/Lexing.antt` reads a text spelling by spelling (gv_spelling says which one is the longest at a
//! place). `State` is what is known at a place, `Act` what a spelling does there: the tokens that it puts, what is refused
//! of it, and the state behind it. `reading` goes over the whole text, also behind what is refused; `lexed` judges it: its
//! tokens, unless something is refused, and then the first refusal by line, column and kind (`specs/Places.antt`). A token
//! of the code has a name's number where one of the definition has its text; `told` leads from one to the other
//! (`specs/Tokens.antt`). `specs/Steps.antt` has what the steps of the code promise one another.
//!
//! The promise: `lex` gives exactly the tokens of the file, or its first refusal, or answers want of memory. The laws in
//! `laws.rt` say that the first refusal stands before all others, that a file has tokens exactly where nothing of it is
//! refused, and that it has one list of them at most.
//!
//! Where to begin: `specs/Lexing.antt` beside `token.rt`, then `file.rt`, `lexer.rt`, and `acts.rt` below it. A new symbol,
//! keyword or refused word is a row of gv_spelling and nothing here, unless an operand ends at it. A new kind of token is a
//! variant of `TokenKind`, a constructor of `What` with a line in `what_of`, a line in `act_between` or `act_inside`, and an
//! arm of `between` or `inside` in `lexer.rt` with its answer in `proofs/`.
#![tactic(auto)]

mod acts;
mod error;
mod file;
mod laws;
mod lexer;
mod names;
mod open;
mod places;
mod token;

pub use error::LexError;
pub use file::lex;
pub use laws::{earliest, longest_is, not_both, one_list};
pub use token::{Part, Piece, Token, TokenKind, Word};
