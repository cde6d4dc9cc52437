use crate::ops::{AssignOp, BinaryOp, Ident, MemberOp, TypeOp, TypeTree, UnaryOp, VarType};
use crate::stmt::Stmt;
use gv_base::{Name, Place};
use sqlite_items::{Boxed, Items};

/// An expression of one token.
#[derive(Clone, Copy, Debug, PartialEq, Eq)]
pub enum Atom {
    Null,
    Bool(bool),
    Int(i32),
    Long(i64),
    /// A string without parts.
    Text(Name),
    Name(Name),
    This,
    Super,
}

/// An expression.
#[cycle(tree)]
#[derive(Debug, Drop)]
pub enum Expr {
    Atom(Place, Atom),
    /// A string with parts.
    GString(Place, GString),
    /// `(` an expression `)`
    Paren(Place, Boxed<Expr>),
    List(Place, Items<Item>),
    Map(Place, Items<Entry>),
    Closure(Place, Closure),
    /// `new`, a class and its arguments.
    New(Place, Ident, Items<Arg>),
    Unary(Place, UnaryOp, Boxed<Expr>),
    Binary(Place, BinaryOp, Boxed<Expr>, Boxed<Expr>),
    Typed(Place, TypeOp, Boxed<Expr>, TypeTree),
    /// `a ? b : c`, or `a ?: c`
    Choice(Place, Boxed<Expr>, Option<Boxed<Expr>>, Boxed<Expr>),
    Assign(Place, AssignOp, Boxed<Expr>, Boxed<Expr>),
    /// A member of a receiver.
    Member(Place, MemberOp, Boxed<Expr>, Label),
    /// `.@` and a field of a receiver.
    Field(Place, Boxed<Expr>, Ident),
    Index(Place, Boxed<Expr>, Items<Expr>),
    /// What is called, and its arguments, closures behind them last.
    Call(Place, Boxed<Expr>, Items<Arg>),
}

/// The text before the first part of a string, and its parts. There is at least one.
#[cycle(tree)]
#[derive(Debug, Drop)]
pub struct GString {
    pub head: Name,
    pub parts: Items<Part>,
}

/// A part of a string, and the text behind it.
#[cycle(tree)]
#[derive(Debug, Drop)]
pub struct Part {
    /// Whether a `->` stands before the value.
    pub is_lazy: bool,
    pub value: Boxed<Expr>,
    pub behind: Name,
}

/// An element of a written list.
#[cycle(tree)]
#[derive(Debug, Drop)]
pub enum Item {
    Plain(Boxed<Expr>),
    /// `*` and a list of elements.
    Spread(Place, Boxed<Expr>),
}

/// The name of a member.
#[cycle(tree)]
#[derive(Debug, Drop)]
pub enum Label {
    Name(Ident),
    /// A string without parts.
    Text(Ident),
    GString(Place, GString),
}

/// A key before a `:`.
#[cycle(tree)]
#[derive(Debug, Drop)]
pub enum Key {
    Label(Label),
    Int(Place, i32),
    Long(Place, i64),
}

/// An entry of a written map.
#[cycle(tree)]
#[derive(Debug, Drop)]
pub enum Entry {
    Keyed(Key, Boxed<Expr>),
    /// A key in parentheses is an expression.
    Computed(Place, Boxed<Expr>, Boxed<Expr>),
    /// `*:` and a map of entries.
    Spread(Place, Boxed<Expr>),
}

/// An argument.
#[cycle(tree)]
#[derive(Debug, Drop)]
pub enum Arg {
    Plain(Boxed<Expr>),
    /// A named one.
    Keyed(Key, Boxed<Expr>),
    /// `*` and a list of arguments.
    Spread(Place, Boxed<Expr>),
    /// `*:` and a map of named ones.
    SpreadMap(Place, Boxed<Expr>),
}

/// A closure.
#[cycle(tree)]
#[derive(Debug, Drop)]
pub enum Closure {
    /// Its parameters, if it has a `->`, and its statements.
    Read(Option<Items<Param>>, Items<Stmt>),
    /// The places of its inner tokens in their list: the first one, and that behind the last one.
    Unread(usize, usize),
}

/// A parameter.
#[cycle(tree)]
#[derive(Debug, Drop)]
pub struct Param {
    pub ident: Ident,
    pub is_final: bool,
    pub written: Option<VarType>,
    /// Whether `...` stands behind its type.
    pub is_rest: bool,
    pub initial: Option<Boxed<Expr>>,
}
