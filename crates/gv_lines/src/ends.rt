//! Between which tokens a line end may count.

ghost use Rattle.std.specs.Prelude.{◌≡◌};
ghost use Rattle.gv_lines.specs.Lines as spec;

use gv_lex::{Piece, TokenKind, Word};
use gv_spelling::{Keyword, Symbol};

/// Whether a line end may count behind a token, by the token before that.
pub fn may_end(before: TokenKind, last: TokenKind) -> bool
    ensures { result ≡ spec.may_end before last }
{
    match last {
        TokenKind::Symbol(symbol) => symbol_may_end(symbol),
        TokenKind::Word(Word::Keyword(keyword), _) => {
            names_member(before) || keyword_may_end(keyword)
        }
        TokenKind::Text(Piece::Head(_) | Piece::Middle(_), _) => false,
        _ => true,
    }
}

fn symbol_may_end(symbol: Symbol) -> bool
    ensures { result ≡ spec.symbol_may_end symbol }
{
    matches!(
        symbol,
        Symbol::RightParen
            | Symbol::RightBracket
            | Symbol::RightBrace
            | Symbol::Increment
            | Symbol::Decrement
            | Symbol::DotStar
    )
}

fn keyword_may_end(keyword: Keyword) -> bool
    ensures { result ≡ spec.keyword_may_end keyword }
{
    !matches!(
        keyword,
        Keyword::Else
            | Keyword::Try
            | Keyword::Finally
            | Keyword::In
            | Keyword::InstanceOf
            | Keyword::As
            | Keyword::Extends
            | Keyword::Implements
    )
}

/// Whether the word behind a token is a member's name.
fn names_member(kind: TokenKind) -> bool
    ensures { result ≡ spec.names_member kind }
{
    matches!(
        kind,
        TokenKind::Symbol(Symbol::Dot | Symbol::SafeDot | Symbol::SpreadDot | Symbol::MethodPointer)
    )
}

/// Whether a line end may count before a token.
pub fn may_begin(kind: TokenKind) -> bool
    ensures { result ≡ spec.may_begin kind }
{
    match kind {
        TokenKind::Symbol(
            Symbol::Dot
            | Symbol::SafeDot
            | Symbol::SpreadDot
            | Symbol::MethodPointer
            | Symbol::FieldDot
            | Symbol::RightBrace,
        ) => false,
        TokenKind::Word(Word::Keyword(keyword), _) => keyword_may_begin(keyword),
        TokenKind::End => false,
        _ => true,
    }
}

fn keyword_may_begin(keyword: Keyword) -> bool
    ensures { result ≡ spec.keyword_may_begin keyword }
{
    !matches!(keyword, Keyword::Else | Keyword::Catch | Keyword::Finally)
}
