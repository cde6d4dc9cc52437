//! Why a token is refused where no script goes on with it.

ghost use Rattle.std.specs.Prelude.{◌≡◌, ◌<◌, length};
ghost use Rattle.std.specs.List.{Contains};
ghost use Rattle.gv_cursor.specs.Refused as spec;

use gv_base::{Foreign, Refusal, RefusalKind};
use gv_lex::{Token, TokenKind, Word};
use gv_spelling::{RefusedWord, Symbol};

fn foreign_word(word: RefusedWord) -> Foreign
    ensures { result ≡ spec.foreign_word word }
{
    match word {
        RefusedWord::Abstract => Foreign::Abstract,
        RefusedWord::Byte => Foreign::Byte,
        RefusedWord::Char => Foreign::Char,
        RefusedWord::Const => Foreign::Const,
        RefusedWord::Do => Foreign::Do,
        RefusedWord::Double => Foreign::Double,
        RefusedWord::Enum => Foreign::Enum,
        RefusedWord::Float => Foreign::Float,
        RefusedWord::Goto => Foreign::Goto,
        RefusedWord::Interface => Foreign::Interface,
        RefusedWord::Native => Foreign::Native,
        RefusedWord::Package => Foreign::Package,
        RefusedWord::Short => Foreign::Short,
        RefusedWord::Strictfp => Foreign::Strictfp,
        RefusedWord::Synchronized => Foreign::Synchronized,
        RefusedWord::Throws => Foreign::Throws,
        RefusedWord::Trait => Foreign::Trait,
        RefusedWord::Transient => Foreign::Transient,
        RefusedWord::Volatile => Foreign::Volatile,
    }
}

fn of_symbol(symbol: Symbol) -> RefusalKind
    ensures { result ≡ spec.of_symbol symbol }
{
    match symbol {
        Symbol::Slash | Symbol::SlashAssign => RefusalKind::PlainDivision,
        Symbol::Power => RefusalKind::NotInProfile(Foreign::Power),
        Symbol::PowerAssign => RefusalKind::NotInProfile(Foreign::PowerAssign),
        Symbol::Tilde => RefusalKind::NotInProfile(Foreign::Tilde),
        Symbol::Find => RefusalKind::NotInProfile(Foreign::Find),
        Symbol::Match => RefusalKind::NotInProfile(Foreign::Match),
        Symbol::Identical => RefusalKind::NotInProfile(Foreign::Identical),
        _ => RefusalKind::UnexpectedToken,
    }
}

/// The refusal of a token.
pub fn refusal_of(token: Token) -> Refusal
    ensures { result ≡ spec.refusal_of token }
{
    let kind = match token.kind {
        TokenKind::Symbol(symbol) => of_symbol(symbol),
        TokenKind::Word(Word::Refused(word), _) => RefusalKind::NotInProfile(foreign_word(word)),
        _ => RefusalKind::UnexpectedToken,
    };
    Refusal {
        kind,
        place: token.place,
    }
}

/// The refusal of a list of tokens, of which so many were left where it was refused. There is at least
/// one.
pub fn refusal_at(tokens: &[Token], left: usize) -> Refusal
    requires { 0 < length tokens.now }
    ensures { spec.IsRefusalIn tokens.now result }
{
    let at = tokens.len().saturating_sub(left);
    if at < tokens.len() {
        refusal_of(tokens[at])
    } else {
        refusal_of(tokens[tokens.len() - 1])
    }
}
