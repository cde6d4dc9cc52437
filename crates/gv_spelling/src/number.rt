//! Numbers.

ghost use Rattle.std.specs.Prelude.{◌≡◌, ◌<◌, ◌≤◌, ◌+◌, ◌^◌, ℕ, true, length, Some, None, if◌then◌else◌, nat_le, take, drop, slice_index};
ghost use Rattle.std.specs.Char.{digit_value, is_ascii_digit};
ghost use Rattle.std.specs.List.{list_all};
ghost use Rattle.gv_spelling.specs.Table as spec;
ghost use Rattle.gv_spelling.specs.Longest.{IsLongest};

use crate::classes::{Class, at, past};
use crate::kinds::{Fault, Lexeme};

#[tactic(auto, unfolding(crate::specs::Table::is_suffix))]
fn is_suffix(c: char) -> bool
    ensures { result ≡ spec.is_suffix c }
{
    c == 'L' || c == 'l' || c == 'I' || c == 'i'
}

fn last(text: &[char]) -> char
    requires { 0 < length text.now }
    ensures { result ≡ spec.last text.now }
{
    at(text, text.len() - 1)
}

fn radix_of(text: &[char]) -> u32
    ensures value { result ≡ spec.radix_of text.now }
    ensures low { 2 ≤ result }
    ensures high { result ≤ 16 }
{
    if text.is_empty() || at(text, 0) != '0' {
        10
    } else if text.len() > 1 && at(text, 1) == 'x' {
        16
    } else if text.len() > 1 && at(text, 1) == 'b' {
        2
    } else {
        8
    }
}

fn is_digit_or_bar(radix: u32, c: char) -> bool
    requires low { 2 ≤ radix }
    requires high { radix ≤ 16 }
    ensures { result ≡ spec.is_digit_or_bar radix c }
{
    c == '_' || c.is_digit(radix)
}

fn are_digits_or_bars(radix: u32, mut text: &[char]) -> bool
    requires low { 2 ≤ radix }
    requires high { radix ≤ 16 }
    ensures { result ≡ list_all (spec.is_digit_or_bar radix) text.entry.now }
{
    while let [c, rest @ ..] = text {
        if !is_digit_or_bar(radix, *c) {
            return false;
        }
        text = rest;
    }
    true
}

fn are_digits(radix: u32, text: &[char]) -> bool
    requires low { 2 ≤ radix }
    requires high { radix ≤ 16 }
    ensures { result ≡ spec.are_digits radix text.now }
{
    !text.is_empty()
        && at(text, 0).is_digit(radix)
        && last(text).is_digit(radix)
        && are_digits_or_bars(radix, text)
}

fn digit_value(c: char) -> u32
    ensures value { result ≡ digit_value c }
    ensures small { result ≤ 36 }
{
    match c.to_digit(36) {
        Some(digit) => digit,
        None => 36,
    }
}

/// The number that the digits write, if it is at most 2 ^ 63.
pub fn value(radix: u32, digits: &[char]) -> Option<u64>
    requires low { 2 ≤ radix }
    requires high { radix ≤ 16 }
    ensures { result ≡ (if nat_le (spec.value radix 0 digits.now) (2 ^ 63) then Some (spec.value radix 0 digits.now) else None) }
{
    let mut value = 0u64;
    'digits: for c in digits {
        if *c != '_' {
            let next = u128::from(value) * u128::from(radix) + u128::from(digit_value(*c));
            if next > 1 << 63 {
                return None;
            }
            value = next as u64;
        }
    }
    Some(value)
}

fn bad_number(signed: bool) -> Lexeme
    ensures { result ≡ spec.bad_number signed }
{
    if signed {
        Lexeme::Fault(Fault::SignedNumber)
    } else {
        Lexeme::Fault(Fault::Number)
    }
}

/// The number with its sign.
fn with_sign(signed: bool, value: u64) -> i64
    requires { spec.fits 63 signed value ≡ true }
    ensures { result ≡ spec.with_sign signed value }
{
    if !signed {
        value as i64
    } else if value == 1 << 63 {
        i64::MIN
    } else {
        -(value as i64)
    }
}

fn fits_int(signed: bool, value: u64) -> bool
    ensures { result ≡ spec.fits 31 signed value }
{
    value < 1 << 31 || (signed && value == 1 << 31)
}

fn fits_long(signed: bool, value: u64) -> bool
    ensures { result ≡ spec.fits 63 signed value }
{
    value < 1 << 63 || (signed && value == 1 << 63)
}

/// The literal with this suffix and value.
fn sized(signed: bool, suffix: char, value: u64) -> Lexeme
    ensures { result ≡ spec.sized signed suffix value }
{
    let is_long = suffix == 'L' || suffix == 'l';
    let is_int = suffix == 'I' || suffix == 'i';
    if fits_int(signed, value) && !is_long {
        Lexeme::Int(with_sign(signed, value) as i32)
    } else if fits_long(signed, value) && !is_int {
        Lexeme::Long(with_sign(signed, value))
    } else {
        Lexeme::Fault(Fault::Past)
    }
}

fn without_suffix(text: &[char]) -> &[char]
    requires { 0 < length text.now }
    ensures { result.now ≡ spec.without_suffix text.now }
{
    if is_suffix(last(text)) {
        &text[..text.len() - 1]
    } else {
        text
    }
}

fn digits_of(text: &[char]) -> &[char]
    ensures { result.now ≡ spec.digits_of text.now }
{
    let radix = radix_of(text);
    if (radix == 16 || radix == 2) && text.len() >= 2 {
        &text[2..]
    } else {
        text
    }
}

fn judge_digits(signed: bool, suffix: char, radix: u32, digits: &[char]) -> Lexeme
    requires low { 2 ≤ radix }
    requires high { radix ≤ 16 }
    ensures { result ≡ spec.judge_digits signed suffix radix digits.now }
{
    if !are_digits(radix, digits) {
        return bad_number(signed);
    }
    match value(radix, digits) {
        Some(value) => sized(signed, suffix, value),
        None => Lexeme::Fault(Fault::Past),
    }
}

/// What the spelling of a number stands for.
#[tactic(auto, unfolding(crate::specs::Table::judge))]
fn judge(signed: bool, text: &[char]) -> Lexeme
    requires { 0 < length text.now }
    ensures { result ≡ spec.judge signed text.now }
{
    let body = without_suffix(text);
    judge_digits(signed, last(text), radix_of(body), digits_of(body))
}

fn is_fraction(text: &[char], place: usize) -> bool
    requires some { 0 < place }
    requires within { place ≤ length text.now }
    ensures value { result ≡ spec.is_fraction place text.now }
    ensures within { result ≡ true → place + 2 ≤ length text.now }
{
    text.len() - place >= 2
        && at(text, place) == '.'
        && at(text, place + 1).is_ascii_digit()
        && !is_suffix(at(text, place - 1))
}

/// The longest number from a place on.
pub fn number(signed: bool, text: &[char], from: usize) -> (Lexeme, usize)
    requires within { from < length text.now }
    requires digit { is_ascii_digit (slice_index text.now from) ≡ true }
    ensures longest { IsLongest (λ s. spec.digits signed (drop from s)) text.now result.0 result.1 }
    ensures beyond { from < result.1 }
{
    let end = past(Class::Name, text, from);
    if is_fraction(text, end) {
        (bad_number(signed), end + 2)
    } else {
        (judge(signed, &text[from..end]), end)
    }
}
