//! Reading scripts: from tokens to their one tree, or to the refusal.
//!
//! How it is stated: as in gv_decls; each function reads one symbol of the grammar, and its contract
//! names that symbol's relation.
//!
//! The promise: `parse` answers the script that the tokens spell, and there is at most one; where there
//! is none, or a token stands too deep, it refuses one of the tokens.
//!
//! Where to begin: `parsing.rt`, then `script.rt` and `classes.rt`.
#![tactic(auto)]

mod classes;
mod parsing;
mod script;

pub use gv_exprs::ParseError;
pub use parsing::parse;
