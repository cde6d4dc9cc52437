//! Between the lexer and the grammar: which line ends of a token list count, and the first token
//! that stands too deep.
//!
//! How it is stated: both read one flat list of tokens from front to back. `kept` of
//! `specs/Lines.antt` says which line ends stay, by the tokens around each and the innermost open
//! bracket. `too_deep` of `specs/Loads.antt` says which token is the first with a load past
//! `MOST_LOAD`, in a list that `kept` left. The definitions have what is open with its innermost
//! first, the code has it last; `specs/Steps.antt` leads from one to the other.
//!
//! The promise: `keep_lines` gives exactly the tokens that are kept, and `too_deep` the place of the
//! first token too deep, or none; or they answer want of memory. Both read each token once, and need
//! no native stack for what is nested. By the laws in `laws.rt` nothing but line ends goes, and of
//! what was kept everything is kept.
//!
//! Where to begin: `specs/Lines.antt` beside `lines.rt` and `ends.rt`, then `specs/Loads.antt` beside
//! `loads.rt` and `counting.rt`. A new symbol has a line, in the definition and in the code, only
//! where a line end counts behind it (`symbol_may_end`) or never before it (`may_begin`), or where it
//! adds to no load (`symbol_counts`).
#![tactic(auto)]

mod counting;
mod ends;
mod laws;
mod lines;
mod loads;

pub use laws::{kept_again, only_line_ends_go};
pub use lines::keep_lines;
pub use loads::{MOST_LOAD, too_deep};
