use gv_base::{Name, Place};
use gv_spelling::{Keyword, RefusedWord, Symbol};

/// What a word is.
#[derive(Clone, Copy, Debug, PartialEq, Eq)]
pub enum Word {
    /// A name that doesn't begin with one of `A` to `Z`.
    Name,
    /// A name that begins with one of `A` to `Z`, as those of classes do.
    TypeName,
    Keyword(Keyword),
    /// A word of Groovy that the profile refuses.
    Refused(RefusedWord),
}

/// What part follows a piece of a string.
#[derive(Clone, Copy, Debug, PartialEq, Eq)]
pub enum Part {
    /// `${ }`
    Braces,
    /// `$a.b`
    Path,
}

/// Which piece of a string a text is.
#[derive(Clone, Copy, Debug, PartialEq, Eq)]
pub enum Piece {
    /// The whole string: it has no parts.
    Whole,
    /// What stands before the first part.
    Head(Part),
    /// What stands between two parts.
    Middle(Part),
    /// What stands behind the last part.
    Tail,
}

/// What a token is. Each `Name` is of the table that `lex` was lent.
#[derive(Clone, Copy, Debug, PartialEq, Eq)]
pub enum TokenKind {
    /// A word, with its text.
    Word(Word, Name),
    /// An Integer literal, with its sign where that belongs to it.
    Int(i32),
    /// A Long literal, likewise.
    Long(i64),
    Symbol(Symbol),
    /// A string or a piece of one, with its text after escapes. Behind a `Head` or a `Middle` stand
    /// the tokens of the part, an `End`, and then the next `Middle` or the `Tail`.
    Text(Piece, Name),
    /// A line end: LF, CR or CR LF.
    LineEnd,
    /// The end of the file, or of a part of a string.
    End,
}

/// A token, and the place of its first character. A `Middle` or a `Tail` stands behind the part before
/// it, the `End` of a `${ }` at its `}`, and that of a `$a.b` behind it.
#[derive(Clone, Copy, Debug, PartialEq, Eq)]
pub struct Token {
    pub kind: TokenKind,
    pub place: Place,
}
