use gv_base::{Name, Place};

/// A name where it is written.
#[derive(Clone, Copy, Debug, PartialEq, Eq)]
pub struct Ident {
    pub place: Place,
    pub name: Name,
}

/// A written type.
#[derive(Clone, Copy, Debug, PartialEq, Eq)]
pub enum TypeTree {
    /// `int`
    Int(Place),
    /// `long`
    Long(Place),
    /// `boolean`
    Boolean(Place),
    /// The name of a class.
    Class(Ident),
}

/// How a variable, a field or a parameter is declared.
#[derive(Clone, Copy, Debug, PartialEq, Eq)]
pub enum VarType {
    /// `def`
    Def,
    Typed(TypeTree),
}

/// An operator before or behind its one operand.
#[derive(Clone, Copy, Debug, PartialEq, Eq)]
pub enum UnaryOp {
    /// `!`
    Not,
    /// `-`
    Minus,
    /// `+`
    Plus,
    /// `++` before its operand.
    Increment,
    /// `--` before its operand.
    Decrement,
    /// `++` behind its operand.
    IncrementAfter,
    /// `--` behind its operand.
    DecrementAfter,
}

/// An operator between two operands.
#[derive(Clone, Copy, Debug, PartialEq, Eq)]
pub enum BinaryOp {
    /// `*`
    Multiply,
    /// `%`
    Mod,
    /// `+`
    Plus,
    /// `-`
    Minus,
    /// `<<`
    LeftShift,
    /// `>>`
    RightShift,
    /// `>>>`
    RightShiftUnsigned,
    /// `..`
    Range,
    /// `..<`
    HalfOpenRange,
    /// `<`
    Less,
    /// `<=`
    LessEqual,
    /// `>`
    Greater,
    /// `>=`
    GreaterEqual,
    /// `in`
    In,
    /// `==`
    Equal,
    /// `!=`
    NotEqual,
    /// `<=>`
    Compare,
    /// `&`
    BitAnd,
    /// `^`
    BitXor,
    /// `|`
    BitOr,
    /// `&&`
    And,
    /// `||`
    Or,
}

/// An operator with a type on its right.
#[derive(Clone, Copy, Debug, PartialEq, Eq)]
pub enum TypeOp {
    /// `instanceof`
    InstanceOf,
    /// `as`
    As,
}

/// An assignment: `=`, or with the operator that is applied first.
#[derive(Clone, Copy, Debug, PartialEq, Eq)]
pub enum AssignOp {
    /// `=`
    Plain,
    /// `+=`
    Plus,
    /// `-=`
    Minus,
    /// `*=`
    Multiply,
    /// `%=`
    Mod,
    /// `<<=`
    LeftShift,
    /// `>>=`
    RightShift,
    /// `>>>=`
    RightShiftUnsigned,
    /// `&=`
    BitAnd,
    /// `|=`
    BitOr,
    /// `^=`
    BitXor,
}

/// How a member is named behind its receiver.
#[derive(Clone, Copy, Debug, PartialEq, Eq)]
pub enum MemberOp {
    /// `.`
    Dot,
    /// `?.`
    Safe,
    /// `*.`
    Spread,
    /// `.&`
    Pointer,
}

/// What leaves a loop or a switch, or a turn of a loop.
#[derive(Clone, Copy, Debug, PartialEq, Eq)]
pub enum Leave {
    Break,
    Continue,
}

/// Which of the words before a declaration are there, in any order and number.
#[derive(Clone, Copy, Debug, PartialEq, Eq)]
pub struct Modifiers {
    pub is_public: bool,
    pub is_private: bool,
    pub is_protected: bool,
    pub is_static: bool,
    pub is_final: bool,
}
