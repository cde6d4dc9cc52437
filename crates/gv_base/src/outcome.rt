use crate::value::Value;

/// An operation on numbers.
#[derive(Clone, Copy, Debug, PartialEq, Eq)]
pub enum ArithOp {
    Plus,
    Minus,
    Multiply,
    Mod,
    IntDiv,
    LeftShift,
    RightShift,
    RightShiftUnsigned,
    And,
    Or,
    Xor,
}

/// What an operation on numbers gives.
#[derive(Clone, Copy, Debug, PartialEq, Eq)]
pub enum Arith {
    Value(Value),
    /// A side is neither an Integer nor a Long.
    NotNumbers,
    /// The remainder or the quotient by zero.
    ByZero,
}
