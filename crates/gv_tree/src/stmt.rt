use crate::expr::Expr;
use crate::ops::{Ident, Leave, TypeTree, VarType};
use gv_base::Place;
use sqlite_items::{Boxed, Items};

/// A statement.
#[cycle(tree)]
#[derive(Debug, Drop)]
pub enum Stmt {
    Decl(Decl),
    /// `def (a, b) =` a value
    Multiple(Place, Items<Ident>, Boxed<Expr>),
    Expr(Boxed<Expr>),
    Block(Place, Items<Stmt>),
    /// The last is what `else` leads to.
    If(Place, Boxed<Expr>, Boxed<Stmt>, Option<Boxed<Stmt>>),
    While(Place, Boxed<Expr>, Boxed<Stmt>),
    /// A loop over the elements of a value.
    ForIn(Place, Option<VarType>, Ident, Boxed<Expr>, Boxed<Stmt>),
    /// A loop with a beginning, a test and a step.
    For(Place, Option<Boxed<Stmt>>, Option<Boxed<Expr>>, Option<Boxed<Expr>>, Boxed<Stmt>),
    Switch(Place, Boxed<Expr>, Items<Case>),
    /// The statements tried, the catches, and those of `finally`.
    Try(Place, Items<Stmt>, Items<Catch>, Option<Items<Stmt>>),
    Throw(Place, Boxed<Expr>),
    Return(Place, Option<Boxed<Expr>>),
    Leave(Place, Leave),
    /// A condition and its message.
    Assert(Place, Boxed<Expr>, Option<Boxed<Expr>>),
}

/// A declaration of variables.
#[cycle(tree)]
#[derive(Debug, Drop)]
pub struct Decl {
    pub place: Place,
    pub is_final: bool,
    pub written: VarType,
    pub vars: Items<Var>,
}

/// A declared variable.
#[cycle(tree)]
#[derive(Debug, Drop)]
pub struct Var {
    pub ident: Ident,
    pub initial: Option<Boxed<Expr>>,
}

/// A case of a switch; one without a value is `default`.
#[cycle(tree)]
#[derive(Debug, Drop)]
pub struct Case {
    pub place: Place,
    pub value: Option<Boxed<Expr>>,
    pub body: Items<Stmt>,
}

/// A catch; one without types catches all.
#[cycle(tree)]
#[derive(Debug, Drop)]
pub struct Catch {
    pub place: Place,
    pub types: Items<TypeTree>,
    pub ident: Ident,
    pub body: Items<Stmt>,
}
