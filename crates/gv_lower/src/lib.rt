//! From a script's tree to its core tree, where each name is decided: a variable by its slot among those in scope, an
//! operator by the method that it calls.
//!
//! How it is stated: `unit_of` of `specs/Core.antt` is the core tree of each script of the forms that are built, by cases on
//! the trees of the grammar; a script with another form has none. `specs/Known.antt` says which names the rules speak of
//! themselves, as those of the operators' methods, and `specs/Placed.antt` what a statement hands to those behind it.
//!
//! The promise: `lower` gives exactly that tree, and `None` exactly where there is none; `Known::new` gives the names of the
//! rules' own texts, and puts those that are new behind the table's. They fail only where memory is wanting.
//!
//! Where to begin: `script.rt`, then `stmts.rt` and `exprs.rt`, whose functions stand in the order of the definitions;
//! `placed.rt` and `lowering.rt` have what they put trees together with. A new form is a clause of `stmt_in`, `number_in` or
//! `effect_in`, and the arm at the same place; a new operator is a clause of `method_of` or `comparison_of`, and its arm in
//! `operators.rt`.
#![tactic(auto)]

mod exprs;
mod known;
mod lowering;
mod names;
mod operators;
mod placed;
mod script;
mod stmts;

pub use known::{Comparison, Known};
pub use script::lower;
