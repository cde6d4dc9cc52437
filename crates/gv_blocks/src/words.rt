//! What tokens mean to statements.

ghost use Rattle.std.specs.Prelude.{◌≡◌, List, MatchBool};
ghost use Rattle.gv_lex.specs.declared.token.Token.{Token};
ghost use Rattle.gv_grammar.specs.Stmts as spec;
ghost use Rattle.gv_blocks.specs.Phrases as words;

use gv_cursor::Tokens;
use gv_decls::{begins_typed, is_name_token, is_type_name};
use gv_lex::{Piece, Token, TokenKind, Word};
use gv_spelling::{Keyword, Symbol};

fn is_bar(kind: TokenKind) -> bool
    ensures { result ≡ spec.is_bar kind }
{
    matches!(kind, TokenKind::Symbol(Symbol::Bar))
}

/// Whether a type's name and then a name or a `|` stand here.
pub fn begins_types(cursor: &Tokens<'_>) -> bool
    ensures { result ≡ spec.begins_types cursor.now.rest.now }
{
    if is_type_name(cursor.kind()) {
        return is_name_token(cursor.kind_behind()) || is_bar(cursor.kind_behind());
    }
    false
}

fn keyword_ends_stmts(keyword: Keyword) -> bool
    ensures { result ≡ spec.keyword_ends_stmts keyword }
{
    matches!(keyword, Keyword::Case | Keyword::Default)
}

/// Whether statements end before it.
pub fn ends_stmts(kind: TokenKind) -> bool
    ensures { result ≡ spec.ends_stmts kind }
{
    match kind {
        TokenKind::Symbol(Symbol::RightBrace) | TokenKind::End => true,
        TokenKind::Word(Word::Keyword(keyword), _) => keyword_ends_stmts(keyword),
        _ => false,
    }
}

fn deeper(kind: TokenKind) -> bool
    ensures { result ≡ spec.deeper kind }
{
    matches!(
        kind,
        TokenKind::Symbol(Symbol::LeftParen | Symbol::LeftBracket | Symbol::LeftBrace)
            | TokenKind::Text(Piece::Head(_), _)
    )
}

fn shallower(kind: TokenKind) -> bool
    ensures { result ≡ spec.shallower kind }
{
    matches!(
        kind,
        TokenKind::Symbol(Symbol::RightParen | Symbol::RightBracket | Symbol::RightBrace)
            | TokenKind::Text(Piece::Tail, _)
    )
}

fn is_arrow(kind: TokenKind) -> bool
    ensures { result ≡ spec.is_arrow kind }
{
    matches!(kind, TokenKind::Symbol(Symbol::Arrow))
}

fn parts_stmts(kind: TokenKind) -> bool
    ensures { result ≡ spec.parts_stmts kind }
{
    matches!(
        kind,
        TokenKind::Symbol(Symbol::Semicolon) | TokenKind::LineEnd
    )
}

/// Whether a `->` stands before the first `;`, line end or closing bracket of this level.
pub fn has_arrow(tokens: &[Token]) -> bool
    ensures { result ≡ spec.has_arrow 0 tokens.now }
{
    let mut depth: usize = 0;
    for token in tokens {
        let kind = token.kind;
        if deeper(kind) {
            depth = depth.saturating_add(1);
        } else if shallower(kind) {
            if depth == 0 {
                return false;
            }
            depth -= 1;
        } else if depth == 0 {
            if is_arrow(kind) {
                return true;
            }
            if parts_stmts(kind) {
                return false;
            }
        }
    }
    false
}

fn keyword_begins_decl(keyword: Keyword) -> bool
    ensures { result ≡ words.keyword_begins_decl keyword }
{
    matches!(
        keyword,
        Keyword::Final | Keyword::Def | Keyword::Int | Keyword::Long | Keyword::Boolean
    )
}

fn word_begins_decl(next: TokenKind) -> bool
    ensures { result ≡ words.word_begins_decl next }
{
    match next {
        TokenKind::Word(Word::Keyword(keyword), _) => keyword_begins_decl(keyword),
        _ => false,
    }
}

/// Whether a declaration begins here.
pub fn begins_decl(cursor: &Tokens<'_>) -> bool
    ensures { result ≡ words.begins_decl cursor.now.rest.now }
{
    word_begins_decl(cursor.kind()) || begins_typed(cursor)
}

/// Goes past the line ends here.
pub fn may_line(cursor: &mut Tokens<'_>)
    ensures { spec.MayLine cursor.old.rest.now cursor.new.rest.now }
{
    while cursor.eat_line() {}
}

/// Goes past a line end or a `;`, if one comes next.
pub fn separates(cursor: &mut Tokens<'_>) -> bool
    ensures { MatchBool result (spec.Separates cursor.old.rest.now cursor.new.rest.now) ((cursor.new.rest.now ≡ cursor.old.rest.now) × ((after : List Token) → spec.Separates cursor.old.rest.now after → ⊥)) }
{
    if cursor.eat_line() {
        return true;
    }
    cursor.eat(Symbol::Semicolon)
}
