//! What spellings are, apart from what is open.

ghost use Rattle.std.specs.Prelude.{◌≡◌, ◌+◌, ◌<◌, slice_index};
ghost use Rattle.std.specs.Char.{is_ascii_uppercase};
ghost use Rattle.gv_lex.specs.Lexing as spec;

use crate::open::OpenText;
use crate::places::next_column;
use crate::token::{Part, Piece, Word};
use gv_base::{Place, Refusal, RefusalKind};
use gv_spelling::{Fault, Keyword, Lexeme, Symbol};

/// Which word a spelling is.
pub fn as_word(text: &[char], what: Lexeme) -> Word
    ensures { result ≡ spec.as_word text.now what }
{
    match what {
        Lexeme::Keyword(keyword) => Word::Keyword(keyword),
        Lexeme::RefusedWord(word) => Word::Refused(word),
        _ if begins_with_upper_case(text) => Word::TypeName,
        _ => Word::Name,
    }
}

fn begins_with_upper_case(text: &[char]) -> bool
    ensures { result ≡ is_ascii_uppercase (slice_index text.now 0) }
{
    match text.first() {
        Some(c) => c.is_ascii_uppercase(),
        None => false,
    }
}

/// Whether a word ends an operand.
pub fn ends_operand(word: Word) -> bool
    ensures { result ≡ spec.ends_operand word }
{
    match word {
        Word::Name | Word::TypeName => true,
        Word::Keyword(
            Keyword::This | Keyword::Super | Keyword::Null | Keyword::True | Keyword::False,
        ) => true,
        Word::Keyword(_) | Word::Refused(_) => false,
    }
}

/// Whether a symbol ends an operand.
pub fn symbol_ends_operand(symbol: Symbol) -> bool
    ensures { result ≡ spec.symbol_ends_operand symbol }
{
    matches!(
        symbol,
        Symbol::RightParen
            | Symbol::RightBracket
            | Symbol::RightBrace
            | Symbol::Increment
            | Symbol::Decrement
    )
}

/// The refusal of a spelling at fault.
pub fn fault_refusal(place: Place, fault: Fault) -> Refusal
    requires { place.column + 1 < 4294967296 }
    ensures { result ≡ spec.fault_refusal place fault }
{
    match fault {
        Fault::Comment => refusal(place, RefusalKind::UnendedComment),
        Fault::Number => refusal(place, RefusalKind::BadNumber),
        Fault::SignedNumber => refusal(next_column(place), RefusalKind::BadNumber),
        Fault::Past => refusal(place, RefusalKind::LiteralPast64Bits),
        Fault::Slashy => refusal(place, RefusalKind::SlashyString),
        Fault::Stray => refusal(place, RefusalKind::StrayCharacter),
    }
}

pub fn refusal(place: Place, kind: RefusalKind) -> Refusal
    ensures { result ≡ spec.refusal place kind }
{
    Refusal { kind, place }
}

/// The piece of a string that ends where a part follows, or where the string ends.
pub fn piece_before(opened: OpenText, part: Option<Part>) -> Piece
    ensures { result ≡ spec.piece_before opened part }
{
    match (part, opened.behind) {
        (Some(part), None) => Piece::Head(part),
        (Some(part), Some(_)) => Piece::Middle(part),
        (None, None) => Piece::Whole,
        (None, Some(_)) => Piece::Tail,
    }
}
