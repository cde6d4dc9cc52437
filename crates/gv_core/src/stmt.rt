use crate::expr::Expr;
use sqlite_items::{Boxed, Items};

/// A way out of statements.
#[derive(Clone, Copy, Debug, PartialEq, Eq)]
pub enum Exit {
    Breaks,
    Continues,
    Returns,
}

/// A statement.
#[cycle(stmt)]
#[derive(Debug, Drop)]
pub enum Stmt {
    /// A new variable in the next slot, and whether closures share it.
    Declare(bool, Expr),
    /// An expression, whose value is given up.
    Do(Expr),
    /// Statements with a scope of their own.
    Block(Items<Stmt>),
    If(Expr, Boxed<Stmt>, Boxed<Stmt>),
    While(Expr, Boxed<Stmt>),
    Break,
    Continue,
    Return(Expr),
}

/// A body: how many variables it captures, how many parameters it has, and what it does.
#[derive(Debug, Drop)]
pub struct Source {
    pub captured: usize,
    pub parameters: usize,
    pub tree: Stmt,
}
