//! Tests of what reads and writes scripts: words, spellings, tokens, lines, expressions, statements, printed trees.
//!
//! They stand in a crate of their own, since tests within a crate prove that crate once more.
//!
//! Where to begin: the module that has the name of the crate that it tests, without `gv_`. Most of them are tables: a script, and
//! what is read of it. A new case is a line.
#![tactic(auto)]

#[cfg(test)]
mod commands;
#[cfg(test)]
mod cursor;
#[cfg(test)]
mod exprs;
#[cfg(test)]
mod lex;
#[cfg(test)]
mod lines;
#[cfg(test)]
mod print;
#[cfg(test)]
mod printed;
#[cfg(test)]
mod spelling;
#[cfg(test)]
mod stmts;
#[cfg(test)]
mod words;
