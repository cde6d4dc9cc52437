use gv_base::Name;
use sqlite_items::{Boxed, Items};

/// What stands for itself.
#[derive(Clone, Copy, Debug, PartialEq, Eq)]
pub enum Const {
    Null,
    Bool(bool),
    Int(i32),
    Long(i64),
    /// The string of a text among the unit's literals.
    Text(Name),
}

/// Which answers of `compareTo` count.
#[derive(Clone, Copy, Debug, PartialEq, Eq)]
pub enum Order {
    /// `<`
    Less,
    /// `<=`
    LessEqual,
    /// `>`
    Greater,
    /// `>=`
    GreaterEqual,
}

/// An expression.
#[cycle(expr)]
#[derive(Debug, Drop)]
pub enum Expr {
    Const(Const),
    /// The value of the variable in a slot.
    Local(usize),
    /// Sets the variable in a slot.
    Assign(usize, Boxed<Expr>),
    /// A call of a method by its name, on the first of these, with the others as arguments.
    Call(Name, Items<Expr>),
    /// Whether the value, which is an answer of `compareTo`, is of this order.
    Ordered(Order, Boxed<Expr>),
    /// Whether two values are equal.
    Equal(Boxed<Expr>, Boxed<Expr>),
    /// Whether a value is false.
    Not(Boxed<Expr>),
}
