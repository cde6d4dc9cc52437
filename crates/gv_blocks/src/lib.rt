//! Reading statements, and what stands between the braces of closures.
//!
//! How it is stated: as in gv_decls. Statements are nested in others and in closures, and closures in
//! statements; the functions don't call each other in that circle: a reader carries two function values,
//! one for nested statements and one for closures. They read from fewer tokens than the reader itself,
//! and `top` and `body` tie the knot.
//!
//! The promise: what is answered is what the tokens spell; nothing that they spell is refused.
//!
//! Where to begin: `reader.rt`, then `stmt.rt`, which tells statements apart, and `branches.rt`,
//! `loops.rt`, `cases.rt` and `catches.rt`; `stmts.rt` ties the knot, and `read.rt` is what other crates
//! call.
#![tactic(auto)]

mod branches;
mod cases;
mod catches;
mod loops;
mod read;
mod reader;
mod stmt;
mod stmts;
mod words;

pub use read::{read_block, read_decl, read_params, read_stmt, read_value, read_vars};
pub use words::{may_line, separates};
