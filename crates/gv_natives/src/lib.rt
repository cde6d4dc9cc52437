//! The table of built-in methods: which there are, on which kinds of receivers, and which of them a
//! call finds by name, kind and number of arguments.
//!
//! How it is stated: contracts see a `Table` as the list of its rows, each as a `Method` of
//! `specs/Table.antt`, which also says when two rows agree and which row a call finds.
//! `specs/BuiltIn.antt` has the list of the built-in methods.
//!
//! The promise: no two rows of a table agree in name, kind and arity (`distinct`). `Table::new` gives
//! the table of the rows handed in, and None exactly where two of them agree. `built_in` gives the
//! rows of the built-in methods. `find` gives the place of the row of exactly this arity, else of the
//! row of any arity, else None, and `row` gives the row at a place. No call takes memory. What a
//! method does isn't said here.
//!
//! Where to begin: `kinds.rt`, `specs/Table.antt`, then `methods.rt`. A new built-in method is a line
//! in `methods.rt` and one more in `ROWS`, and no proof. The lines are the definition itself, so
//! value_tests compares them with examples. docs/METHODS.md tells users of each method.
#![tactic(auto)]

mod kinds;
mod methods;
mod table;

pub use kinds::{ANY_ARITY, Kind, Row, Takes};
pub use methods::{ROWS, built_in};
pub use table::{AsRow, RowTable, Table};
