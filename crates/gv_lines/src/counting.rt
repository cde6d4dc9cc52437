//! Which tokens count towards a load.

ghost use Rattle.std.specs.Prelude.{◌≡◌, ◌≤◌, ◌+◌, suc};
ghost use Rattle.gv_lines.specs.Loads as spec;

use crate::loads::{Before, Level, MOST_LOAD};
use gv_lex::{Piece, TokenKind, Word};
use gv_spelling::{Keyword, Symbol};

/// A level behind a token that stands in it.
pub fn counted(level: Level, kind: TokenKind) -> Level
    requires { level.count ≤ MOST_LOAD + 1 }
    ensures { result ≡ spec.counted level kind }
{
    let count = if resets(level, kind) {
        0
    } else if counts(level.before, kind) {
        level.count + 1
    } else {
        level.count
    };
    Level {
        count,
        before: before_behind(level.before, kind),
        ..level
    }
}

fn counts(before: Before, kind: TokenKind) -> bool
    ensures { result ≡ spec.counts before kind }
{
    match kind {
        TokenKind::Word(Word::Name | Word::TypeName, _) => follows_operand(before),
        TokenKind::Word(_, _) => true,
        TokenKind::Int(_) | TokenKind::Long(_) => follows_operand(before),
        TokenKind::Symbol(symbol) => symbol_counts(symbol),
        TokenKind::Text(Piece::Whole | Piece::Head(_), _) => follows_operand(before),
        TokenKind::Text(Piece::Middle(_) | Piece::Tail, _) => false,
        TokenKind::LineEnd | TokenKind::End => false,
    }
}

fn follows_operand(before: Before) -> bool
    ensures { result ≡ spec.follows_operand before }
{
    matches!(before, Before::Operand | Before::HeadEnd)
}

fn symbol_counts(symbol: Symbol) -> bool
    ensures { result ≡ spec.symbol_counts symbol }
{
    !matches!(
        symbol,
        Symbol::Comma
            | Symbol::Semicolon
            | Symbol::RightParen
            | Symbol::RightBracket
            | Symbol::RightBrace
    )
}

fn resets(level: Level, kind: TokenKind) -> bool
    ensures { result ≡ spec.resets level kind }
{
    match kind {
        TokenKind::Symbol(Symbol::Comma) => level.list,
        TokenKind::Symbol(Symbol::Semicolon) => true,
        TokenKind::LineEnd => !matches!(level.before, Before::HeadEnd),
        _ => false,
    }
}

fn before_behind(before: Before, kind: TokenKind) -> Before
    ensures { result ≡ spec.before_behind before kind }
{
    match kind {
        TokenKind::Word(Word::Name | Word::TypeName, _) => Before::Operand,
        TokenKind::Word(Word::Keyword(keyword), _) => of_keyword(before, keyword),
        TokenKind::Word(Word::Refused(_), _) => Before::Other,
        TokenKind::Int(_) | TokenKind::Long(_) | TokenKind::Text(_, _) => Before::Operand,
        TokenKind::Symbol(symbol) => of_symbol(symbol),
        TokenKind::LineEnd | TokenKind::End => Before::Other,
    }
}

fn of_keyword(before: Before, keyword: Keyword) -> Before
    ensures { result ≡ spec.of_keyword before keyword }
{
    match (before, keyword) {
        (Before::Dot, _) => Before::Other,
        (_, Keyword::If | Keyword::While | Keyword::For) => Before::HeadWord,
        _ => Before::Other,
    }
}

fn of_symbol(symbol: Symbol) -> Before
    ensures { result ≡ spec.of_symbol symbol }
{
    match symbol {
        Symbol::RightParen | Symbol::RightBracket | Symbol::RightBrace => Before::Operand,
        Symbol::Dot | Symbol::SafeDot | Symbol::SpreadDot | Symbol::MethodPointer => Before::Dot,
        _ => Before::Other,
    }
}
