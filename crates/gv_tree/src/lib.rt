//! The trees of scripts: one type for each kind of phrase, one variant for each form of the grammar.
//!
//! How it is stated: trees are plain data; lists stand in the places of `Items`, and a tree in that of
//! a `Boxed`. A name is its number in the table that the tokens were made with, also for the text of a
//! string.
//!
//! The promise: every form of the grammar has its variant, and a tree says nothing that its tokens
//! don't. A pair of parentheses is a node; blanks, comments, line ends and separators leave nothing.
//! Each form has a place, that of the token by which it is known: an operator, a `.`, the bracket of an
//! index, of a list or of a call's arguments, the first word of a statement, a declared name.
//!
//! Where to begin: `expr.rt`, then `stmt.rt`, and `top.rt`, which has classes and scripts. A new form
//! is a variant there, and a production of the grammar.
#![tactic(auto)]

mod expr;
mod ops;
mod stmt;
mod top;

pub use expr::{Arg, Atom, Closure, Entry, Expr, GString, Item, Key, Label, Param, Part};
pub use ops::{
    AssignOp, BinaryOp, Ident, Leave, MemberOp, Modifiers, TypeOp, TypeTree, UnaryOp, VarType,
};
pub use stmt::{Case, Catch, Decl, Stmt, Var};
pub use top::{
    Annotation, Answer, ClassTree, Constructor, Field, Import, Member, Method, Script, Setting, Top,
};
