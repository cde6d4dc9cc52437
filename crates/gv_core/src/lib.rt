//! Core trees: what a script does, with each of its names decided. They are made of the trees of the grammar; the source meaning
//! (gv_meaning) says what they do, and code is written from them (gv_emit).
//!
//! How it is stated: plain data. A variable is its slot among the variables of its body, counted from the body's start, of those
//! whose scope is open there. A body is known by its number in its unit; its first variables are the captured ones, then its
//! parameters, of which the first is `this`.
//!
//! The promise: a form of the language that is made of others has no form of its own here. An operator that is a call is a call by
//! its method's name; a method's value is given by a `Return`.
//!
//! Where to begin: `expr.rt`, then `stmt.rt`.
#![tactic(auto)]

mod expr;
mod stmt;

pub use expr::{Const, Expr, Order};
pub use stmt::{Exit, Source, Stmt};
