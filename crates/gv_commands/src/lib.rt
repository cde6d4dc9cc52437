//! Reading full expressions: expressions, and commands, whose arguments have no parentheses.
//!
//! How it is stated: as in gv_exprs. A command begins with a path, its head, that a name or arguments
//! follow; `specs/Heads.antt` says which, and how a command goes on from there. What may end in an
//! expression is read before a token with which no expression goes on: there is at most one such phrase.
//!
//! The promise: `read_full` answers the full expression that the tokens begin with, or refuses where
//! there is none, or tells that memory ran out. Closures stay unread.
//!
//! Where to begin: `commands.rt`.
#![tactic(auto)]

mod commands;

pub use commands::read_full;
