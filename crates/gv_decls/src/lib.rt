//! Reading what statements are made of: expressions with their closures read, declarations, parameters,
//! and the statements that have no others inside.
//!
//! How it is stated: each function reads one symbol of the grammar, and its contract names that symbol's
//! relation: it answers a phrase of it, and refuses exactly where there is none. What may end in an
//! expression is read before a token with which no expression goes on: there is at most one such phrase.
//! The tokens between the braces of a closure are read by a function value (`Values::body`), from fewer
//! tokens than the reader itself.
//!
//! The promise: what is answered is what the tokens spell; nothing that they spell is refused.
//!
//! Where to begin: `values.rt`, then `decls.rt` and `plain.rt`; `words.rt` tells tokens apart.
#![tactic(auto)]

mod decls;
mod plain;
mod values;
mod words;

pub use decls::{ident, may_typed, var_type};
pub use values::Values;
pub use words::{begins_typed, is_left_paren, is_name_token, is_type_name};
