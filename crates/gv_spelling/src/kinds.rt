//! What a spelling stands for.

/// The symbols. The last six are Groovy's, and the profile refuses them.
#[derive(Clone, Copy, Debug, PartialEq, Eq)]
pub enum Symbol {
    /// `(`
    LeftParen,
    /// `)`
    RightParen,
    /// `[`
    LeftBracket,
    /// `]`
    RightBracket,
    /// `{`
    LeftBrace,
    /// `}`
    RightBrace,
    /// `,`
    Comma,
    /// `;`
    Semicolon,
    /// `:`
    Colon,
    /// `.`
    Dot,
    /// `?.`
    SafeDot,
    /// `*.`
    SpreadDot,
    /// `.&`
    MethodPointer,
    /// `.@`
    FieldDot,
    /// `.*`
    DotStar,
    /// `..`
    Range,
    /// `..<`
    HalfOpenRange,
    /// `...`
    Ellipsis,
    /// `->`
    Arrow,
    /// `?`
    Question,
    /// `?:`
    Elvis,
    /// `!`
    Not,
    /// `+`
    Plus,
    /// `-`
    Minus,
    /// `*`
    Star,
    /// `%`
    Percent,
    /// `++`
    Increment,
    /// `--`
    Decrement,
    /// `<<`
    ShiftLeft,
    /// `>>`
    ShiftRight,
    /// `>>>`
    ShiftRightUnsigned,
    /// `<`
    Less,
    /// `<=`
    LessEqual,
    /// `>`
    Greater,
    /// `>=`
    GreaterEqual,
    /// `<=>`
    Spaceship,
    /// `==`
    Equal,
    /// `!=`
    NotEqual,
    /// `&`
    Ampersand,
    /// `|`
    Bar,
    /// `^`
    Caret,
    /// `&&`
    And,
    /// `||`
    Or,
    /// `=`
    Assign,
    /// `+=`
    PlusAssign,
    /// `-=`
    MinusAssign,
    /// `*=`
    StarAssign,
    /// `%=`
    PercentAssign,
    /// `<<=`
    ShiftLeftAssign,
    /// `>>=`
    ShiftRightAssign,
    /// `>>>=`
    ShiftRightUnsignedAssign,
    /// `&=`
    AmpersandAssign,
    /// `|=`
    BarAssign,
    /// `^=`
    CaretAssign,
    /// `@`
    At,
    /// `*:`
    SpreadColon,
    /// `/`
    Slash,
    /// `/=`
    SlashAssign,
    /// `**`
    Power,
    /// `**=`
    PowerAssign,
    /// `~`
    Tilde,
    /// `=~`
    Find,
    /// `==~`
    Match,
    /// `===`
    Identical,
}

/// The keywords.
#[derive(Clone, Copy, Debug, PartialEq, Eq)]
pub enum Keyword {
    As,
    Assert,
    Boolean,
    Break,
    Case,
    Catch,
    Class,
    Continue,
    Def,
    Default,
    Else,
    Extends,
    False,
    Final,
    Finally,
    For,
    If,
    Implements,
    Import,
    In,
    InstanceOf,
    Int,
    Long,
    New,
    Null,
    Private,
    Protected,
    Public,
    Return,
    Static,
    Super,
    Switch,
    This,
    Throw,
    True,
    Try,
    Void,
    While,
}

/// Words of Groovy that the profile refuses where a keyword or a name could stand.
#[derive(Clone, Copy, Debug, PartialEq, Eq)]
pub enum RefusedWord {
    Abstract,
    Byte,
    Char,
    Const,
    Do,
    Double,
    Enum,
    Float,
    Goto,
    Interface,
    Native,
    Package,
    Short,
    Strictfp,
    Synchronized,
    Throws,
    Trait,
    Transient,
    Volatile,
}

/// What opens a string.
#[derive(Clone, Copy, Debug, PartialEq, Eq)]
pub enum Quote {
    /// `'`
    Single,
    /// `'''`
    SingleTriple,
    /// `"`
    Double,
    /// `"""`
    DoubleTriple,
}

/// What is wrong with a spelling between strings.
#[derive(Clone, Copy, Debug, PartialEq, Eq)]
pub enum Fault {
    /// `/*` without a `*/` behind it.
    Comment,
    /// A number that is not written as an integer: `09`, `1.5`, `1e5`, `1abc`, `1_`.
    Number,
    /// The same behind a sign that belongs to it: the number starts one character later.
    SignedNumber,
    /// An integer that does not fit its suffix, or 64 bits.
    Past,
    /// `/` where no operand stands before it, or `$/`: the start of a slashy string.
    Slashy,
    /// A character that begins no spelling.
    Stray,
}

/// What a spelling between strings stands for.
#[derive(Clone, Copy, Debug, PartialEq, Eq)]
pub enum Lexeme {
    /// Blanks or a comment.
    Space,
    /// LF, CR or CR LF.
    LineEnd,
    /// A name.
    Name,
    /// A keyword.
    Keyword(Keyword),
    /// A word that the profile refuses.
    RefusedWord(RefusedWord),
    /// An Integer.
    Int(i32),
    /// A Long.
    Long(i64),
    /// A symbol.
    Symbol(Symbol),
    /// The quote at which a string starts.
    Open(Quote),
    /// A spelling at fault.
    Fault(Fault),
}

/// What a spelling inside a string stands for.
#[derive(Clone, Copy, Debug, PartialEq, Eq)]
pub enum Unit {
    /// This character.
    Char(char),
    /// Nothing: a backslash before a line end.
    Join,
    /// The quote at which the string ends.
    Close,
    /// `${`
    Part,
    /// `$a.b`
    Path,
    /// The fault of a backslash that begins no escape.
    BadEscape,
    /// The fault of a `$` that begins no part.
    LoneDollar,
    /// The fault of a line end in a string of one line.
    Unended,
}
