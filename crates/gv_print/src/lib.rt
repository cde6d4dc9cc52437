//! The text of a script's tree, written in one fixed way, so that whoever reads it sees the tree.
//!
//! One statement or member a line, two blanks for each level. Calls have parentheses, with closures among their arguments; a
//! closure's statements stand on lines of their own, and what follows it goes on behind its `}`. A sign before a digit or a sign
//! has a blank behind it. Strings without parts stand in `'`, those with parts in `"`.
//!
//! How it is stated: `specs/Texts.antt` has the texts of what has no parts: names, operators, strings. `specs/Printed.antt` says for
//! each form of the grammar what it puts behind what was printed before it. A text is the list of its bytes. Trees are read as deep
//! as `MOST_LEVELS`, which no tree that was parsed exceeds.
//!
//! The promise: `print_tree` gives that text, or wants memory.
//!
//! Where to begin: `specs/Printed.antt`, then `printer.rt`, which follows it line by line.
#![tactic(auto)]

mod begins;
mod printer;
mod so_far;
mod strings;
mod tops;
mod words;

pub use printer::MOST_LEVELS;
pub use tops::print_tree;
