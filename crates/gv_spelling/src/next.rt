//! The next spelling between strings.

ghost use Rattle.std.specs.Prelude.{◌≡◌, ◌<◌, ◌≤◌, ◌+◌, ℕ, true, ◌^◌, length, IfSome, Some, None, take, drop, ◌==◌, ◌&&◌, not, false, slice_index};
ghost use Rattle.std.specs.Char.{is_ascii_digit};
ghost use Rattle.std.specs.List.{prefix_len};
ghost use Rattle.gv_spelling.specs.Table as spec;
ghost use Rattle.gv_spelling.specs.Longest.{IsLongest};

use crate::classes::{Class, Front, at, front_of, past};
use crate::kinds::{Fault, Lexeme};
use crate::number::number;
use crate::table::{longest, symbols, word_of};

/// Whether `$/` stands at the front.
fn is_dollar_slash(text: &[char]) -> bool
    ensures value { result ≡ spec.is_dollar_slash text.now }
    ensures parts { result ≡ true → (slice_index text.now 0 ≡ 36) × (slice_index text.now 1 ≡ 47) × (1 < length text.now) }
{
    text.len() > 1 && at(text, 0) == '$' && at(text, 1) == '/'
}

fn name(text: &[char]) -> (Lexeme, usize)
    requires { 0 < length text.now }
    ensures { IsLongest spec.name text.now result.0 result.1 }
{
    if is_dollar_slash(text) {
        return (Lexeme::Fault(Fault::Slashy), 2);
    }
    let len = past(Class::Name, text, 1);
    (word_of(&text[..len]), len)
}

fn blanks(text: &[char]) -> (Lexeme, usize)
    requires { 0 < length text.now }
    ensures { IsLongest (spec.by_front Front.Blank true) text.now result.0 result.1 }
{
    (Lexeme::Space, past(Class::Blank, text, 1))
}

fn symbol(text: &[char]) -> (Lexeme, usize)
    requires { 0 < length text.now }
    ensures { IsLongest spec.symbol text.now result.0 result.1 }
{
    match longest(symbols(), text) {
        Some(found) => found,
        None => (Lexeme::Fault(Fault::Stray), 1),
    }
}

/// The place behind the first `*/` from `from` on.
fn closing(text: &[char], from: usize) -> Option<usize>
    requires { from ≤ length text.now }
    ensures value { result ≡ spec.closing from (drop from text.now) }
    ensures within { IfSome result (λ n. (from ≤ n) × (n ≤ length text.now)) }
{
    let mut place = from;
    while place < text.len() {
        if text[place] == '*' && place + 1 < text.len() && text[place + 1] == '/' {
            return Some(place + 2);
        }
        place += 1;
    }
    None
}

fn comment(text: &[char]) -> (Lexeme, usize)
    requires { 1 < length text.now }
    ensures { IsLongest (λ s. spec.comment (spec.closing 2 (drop 2 s)) (length s)) text.now result.0 result.1 }
{
    match closing(text, 2) {
        Some(len) => (Lexeme::Space, len),
        None => (Lexeme::Fault(Fault::Comment), text.len()),
    }
}

fn slash(operand: bool, text: &[char]) -> (Lexeme, usize)
    requires { 0 < length text.now }
    ensures { IsLongest (spec.slash operand) text.now result.0 result.1 }
{
    if text.len() > 1 && at(text, 1) == '/' {
        (Lexeme::Space, past(Class::NotLine, text, 2))
    } else if text.len() > 1 && at(text, 1) == '*' {
        comment(text)
    } else if operand {
        symbol(text)
    } else {
        (Lexeme::Fault(Fault::Slashy), 1)
    }
}

/// Whether a sign at the front belongs to a number.
fn is_signed(operand: bool, text: &[char]) -> bool
    ensures value { result ≡ (not operand && is_ascii_digit (slice_index text.now 1)) }
    ensures parts { result ≡ true → (operand ≡ false) × (is_ascii_digit (slice_index text.now 1) ≡ true) × (1 < length text.now) }
{
    !operand && text.len() > 1 && at(text, 1).is_ascii_digit()
}

fn minus(operand: bool, text: &[char]) -> (Lexeme, usize)
    requires { 0 < length text.now }
    ensures { IsLongest (spec.minus operand) text.now result.0 result.1 }
{
    if is_signed(operand, text) {
        number(true, text, 1)
    } else {
        symbol(text)
    }
}

/// The longest spelling between strings with which the text begins, and its length. The flag says whether an
/// operand ends before it.
pub fn between(operand: bool, text: &[char]) -> (Lexeme, usize)
    requires { 0 < length text.now }
    ensures { IsLongest (spec.between operand) text.now result.0 result.1 }
{
    match front_of(at(text, 0)) {
        Front::Start => name(text),
        Front::Digit => number(false, text, 0),
        Front::Blank => blanks(text),
        Front::Slash => slash(operand, text),
        Front::Minus => minus(operand, text),
        Front::Other => symbol(text),
    }
}
