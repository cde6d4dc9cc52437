//! The grammar: which tokens are a spelling of which tree.
//!
//! It has definitions and laws, and no code that runs. A parser above it says in its contract that
//! what it gives is a reading by this grammar, and a printer that what it writes has one.
//!
//! How it is stated: one relation for each symbol of the grammar, one constructor for each of its
//! productions. `IsX x ts rest` says that the tokens `ts` begin with a spelling of `x`, and that `rest`
//! follows it; `GoesX x y ts rest` that `x`, which stands before `ts`, goes on with what `ts` begins
//! with and becomes `y`. So a list is a first phrase and what it goes on with, what stands in brackets
//! is read up to and with the one that closes, and what may end may end anywhere: that a phrase is the
//! longest is no part of the grammar, but of what is said of a parser (`specs/Phrases.antt`). Strings
//! with parts are flat lists of tokens. The tokens between the braces of a closure only have brackets
//! that match, and until then the tree has their places in the list; statements read them (`Reads`), so
//! their relations name the whole list.
//!
//! The promise, in `laws.rt`: the same tokens have one tree at most, and two readings of different
//! length differ by a token with which the longer one goes on, so a phrase before any other token is
//! read in one way. A list of tokens is the script of one tree at most. A reading of an expression takes
//! tokens from the front, one at least, and with which tokens it begins is known exactly. Its unread
//! closures lie in the list, and from each of them on there are fewer tokens than from the expression on.
//!
//! Where to begin: `specs/Exprs.antt`, after the words of `specs/Tokens.antt`; then
//! `specs/Meeting.antt` and `laws.rt`. `specs/Commands.antt` has calls without parentheses,
//! `specs/Stmts.antt` statements, `specs/Closures.antt` what an expression becomes when its closures are
//! read, `specs/Scripts.antt` classes and scripts, and `specs/Examples.antt` trees written out.
//!
//! A new production is a constructor in `specs/Exprs.antt`. It needs a line in `Lengths`, for what it
//! takes; one in `Places`, for the closures in it; one in `Firsts`, for the class of the token that it
//! begins with; and clauses in `Meets`: with itself, and with those of the same symbol that begin with
//! the same token. A token with which an expression goes on has its looseness in `reach`, and a line in
//! the `.._stop` and `.._stops` of its symbol. A list of elements of a new kind ends with its bracket,
//! and its elements before a token with which no expression goes on.
#![tactic(auto)]

mod laws;

pub use laws::{
    begins, closures_within, examples, one_expr, one_full, one_reading, one_script, one_stmt,
    one_stmts, readings_meet, takes_tokens,
};
