//! Names and types, by the next tokens.

ghost use Rattle.std.specs.Prelude.{◌≡◌, ◌≢◌, MatchBool};
ghost use Rattle.gv_spelling.specs.declared.kinds.Symbol.TheVariants as symbol;
ghost use Rattle.gv_lex.specs.declared.token.TokenKind.TheVariants as kind;
ghost use Rattle.gv_grammar.specs.Stmts as spec;

use gv_cursor::Tokens;
use gv_lex::{TokenKind, Word};
use gv_spelling::Symbol;

/// Whether it is a name, of a type or of anything else.
pub fn is_name_token(kind: TokenKind) -> bool
    ensures { result ≡ spec.is_name_token kind }
{
    matches!(kind, TokenKind::Word(Word::Name | Word::TypeName, _))
}

/// Whether it is the name of a type.
pub fn is_type_name(kind: TokenKind) -> bool
    ensures { result ≡ spec.is_type_name kind }
{
    matches!(kind, TokenKind::Word(Word::TypeName, _))
}

/// Whether a type's name and then a name stand here: a declaration.
pub fn begins_typed(cursor: &Tokens<'_>) -> bool
    ensures { result ≡ spec.begins_typed cursor.now.rest.now }
{
    is_type_name(cursor.kind()) && is_name_token(cursor.kind_behind())
}

/// Whether it is a `...`.
pub fn is_ellipsis(next: TokenKind) -> bool
    ensures { MatchBool result (next ≡ kind.Symbol symbol.Ellipsis) (next ≢ kind.Symbol symbol.Ellipsis) }
{
    matches!(next, TokenKind::Symbol(Symbol::Ellipsis))
}

/// Whether it is a `(`.
pub fn is_left_paren(next: TokenKind) -> bool
    ensures { MatchBool result (next ≡ kind.Symbol symbol.LeftParen) (next ≢ kind.Symbol symbol.LeftParen) }
{
    matches!(next, TokenKind::Symbol(Symbol::LeftParen))
}
