//! Reading expressions: from tokens to the longest expression that they begin with.
//!
//! How it is stated: each function reads one symbol of the grammar, and its contract names that symbol's
//! relation: it answers the longest phrase where there is one, and refuses exactly where there is none. An
//! element of a comma list is read before what ends it, a comma or a bracket that closes. Closures stay
//! unread.
//!
//! The functions don't call each other in a circle: what stands in brackets, or behind an operator that
//! reads an expression, is read by a function value that a reader carries (`Exprs::nested`). It reads
//! from fewer tokens than the reader itself, and `top` ties the knot.
//!
//! The promise: `read_expr` and `parse_expr` answer the longest expression that the tokens begin with, or
//! refuse where none begins, or tell that memory ran out; so do the other functions of `top.rt` for the
//! parts of commands.
//!
//! Where to begin: `reader.rt`, then `operators.rt`, `paths.rt`, `strings.rt` and `elements.rt`. A new
//! production is a constructor in gv_grammar, what the longest phrase is in its proofs, and a function
//! here.
#![tactic(auto)]

mod elements;
mod operators;
mod parse;
mod paths;
mod reader;
mod strings;
mod top;

pub use elements::{is_colon, key_of};
pub use parse::{ParseError, parse_expr};
pub use top::{read_cond, read_expr, read_path, read_suffix};
