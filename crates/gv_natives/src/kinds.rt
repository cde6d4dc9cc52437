//! What a row of the table says.

/// The arity of a row that takes any number of arguments.
pub const ANY_ARITY: u8 = 255;

/// The kinds of receivers that have methods of their own.
#[derive(Clone, Copy, Debug, PartialEq, Eq)]
pub enum Kind {
    /// Every value but null.
    Object,
    /// An Integer or a Long.
    Number,
    Boolean,
    /// A String, or a GString by its text.
    String,
    /// A List or a Range.
    List,
    Map,
    Closure,
    Class,
    MetaClass,
    MetaMember,
    MetaMethod,
    /// An exception or an error.
    Throwable,
    /// A key of a map with its value.
    Entry,
}

/// What a parameter takes. Null passes for each of them when a row is chosen.
#[derive(Clone, Copy, Debug, PartialEq, Eq)]
pub enum Takes {
    /// There is no such parameter.
    Nothing,
    /// Any value.
    Any,
    /// A String or a GString.
    Text,
    Integer,
    /// An Integer or a Long.
    Number,
    NumberOrText,
    IntegerOrList,
    /// A List or a Range.
    List,
    Map,
    Closure,
}

/// A built-in method.
#[derive(Clone, Copy, Debug, PartialEq, Eq)]
pub struct Row {
    pub name: &'static str,
    pub kind: Kind,
    /// How many arguments it takes, or `ANY_ARITY`.
    pub arity: u8,
    /// What the first parameter takes.
    pub first: Takes,
    /// What the second parameter takes. There is no third.
    pub second: Takes,
    /// Whether it calls script code, or enters inner collections.
    pub walks: bool,
}
