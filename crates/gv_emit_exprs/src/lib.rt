//! The written code of expressions, emitted.
//!
//! How it is stated: `expr_items` of `gv_written` says which items each expression is. The functions here are given how many
//! variables are in scope, and the kinds of the operands that lie on the stack, the top first; each instruction takes a copy.
//!
//! The promise: `emit_expr` writes exactly the items of an expression, for the operands that lie on the builder's stack; `items_of`
//! gives them as a list. They fail only where memory is wanting.
//!
//! Where to begin: `exprs.rt`, whose arms are the forms; `items.rt` has what they put items together with. A new form is a clause of
//! `expr_items`, an arm, and a function of `items.rt` where none of those there fits.
#![tactic(auto)]

mod exprs;
mod items;

pub use exprs::{emit_expr, items_of};
pub use items::{leave, on_value, one, value_on};
