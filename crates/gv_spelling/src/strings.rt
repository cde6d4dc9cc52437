//! The next spelling inside a string.

ghost use Rattle.std.specs.Prelude.{◌≡◌, ◌<◌, ◌≤◌, ◌+◌, ℕ, ◌&&◌, ◌==◌, true, length, slice_index, IfSome, IfNone, Some, None, take, drop};
ghost use Rattle.std.specs.List.{list_all};
ghost use Rattle.gv_spelling.specs.Table as spec;
ghost use Rattle.gv_spelling.specs.Longest.{IsLongest};

use crate::classes::{Class, at, is_in};
use crate::kinds::{Quote, Unit};
use crate::number::value;
use crate::table::{longest, units};

fn is_hex(c: char) -> bool
    ensures { result ≡ spec.is_hex c }
{
    c.is_ascii_hexdigit()
}

fn are_hex(mut text: &[char]) -> bool
    ensures { result ≡ list_all spec.is_hex text.entry.now }
{
    while let [c, rest @ ..] = text {
        if !is_hex(*c) {
            return false;
        }
        text = rest;
    }
    true
}

/// The character with this code, unless it is a surrogate or past the last one.
fn char_of(code: Option<u64>) -> Option<char>
    ensures { result ≡ spec.char_of code }
{
    let Some(code) = code else {
        return None;
    };
    if code < 0xd800 || (0xe000 <= code && code < 0x11_0000) {
        char::from_u32(code as u32)
    } else {
        None
    }
}

fn is_unicode(text: &[char]) -> bool
    ensures { result ≡ spec.is_unicode text.now }
{
    text.len() == 6 && at(text, 0) == '\\' && at(text, 1) == 'u' && are_hex(&text[2..])
}

/// The character that `\u` and four digits stand for.
#[tactic(auto, unfolding(crate::specs::Table::unicode_char))]
fn unicode_char(text: &[char]) -> Option<char>
    ensures { result ≡ spec.unicode_char text.now }
{
    if is_unicode(text) && text.len() >= 2 {
        char_of(value(16, &text[2..]))
    } else {
        None
    }
}

fn unicode_front(text: &[char]) -> Option<char>
    ensures some { IfSome result (λ c. (6 ≤ length text.now) × (spec.unicode_char (take 6 text.now) ≡ Some c)) }
    ensures none { IfNone result (6 ≤ length text.now → spec.unicode_char (take 6 text.now) ≡ None) }
{
    if text.len() < 6 {
        return None;
    }
    unicode_char(&text[..6])
}

fn is_part_start(c: char) -> bool
    ensures { result ≡ spec.part_start c }
{
    is_in(Class::Start, c) && c != '$'
}

fn part_goes(c: char) -> bool
    ensures { result ≡ spec.part_goes c }
{
    is_in(Class::Name, c) && c != '$'
}

/// The place behind the longest path that begins at `from`, or `from`.
fn path_end(text: &[char], from: usize) -> usize
    requires { from ≤ length text.now }
    ensures value { result ≡ spec.path_end true from from (drop from text.now) }
    ensures within { result ≤ length text.now }
{
    let mut end = from;
    let mut place = from;
    let mut fresh = true;
    while place < text.len() {
        let c = text[place];
        if fresh {
            if !is_part_start(c) {
                return end;
            }
            fresh = false;
            end = place + 1;
        } else if c == '.' {
            fresh = true;
        } else if part_goes(c) {
            end = place + 1;
        } else {
            return end;
        }
        place += 1;
    }
    end
}

fn is_double(quote: Quote) -> bool
    ensures { result ≡ spec.is_double quote }
{
    match quote {
        Quote::Double | Quote::DoubleTriple => true,
        _ => false,
    }
}

/// Whether a part may begin here.
fn has_dollar(quote: Quote, text: &[char]) -> bool
    requires { 0 < length text.now }
    ensures value { result ≡ (spec.is_double quote && slice_index text.now 0 == 36) }
    ensures parts { result ≡ true → (spec.is_double quote ≡ true) × (slice_index text.now 0 ≡ 36) }
{
    is_double(quote) && at(text, 0) == '$'
}

/// The length of the longest path at the front, or 0.
fn path_len(quote: Quote, text: &[char]) -> usize
    requires { 0 < length text.now }
    ensures some { 0 < result → IsLongest (spec.path quote) text.now Unit.Path result }
    ensures two { 0 < result → 2 ≤ result }
    ensures dollar { 0 < result → slice_index text.now 0 ≡ 36 }
    ensures none { result ≡ 0 → (n : ℕ) → n ≤ length text.now → spec.path quote (take n text.now) ≡ None }
{
    if !has_dollar(quote, text) {
        return 0;
    }
    let end = path_end(text, 1);
    if end > 1 { end } else { 0 }
}

/// The longest spelling with which the text begins inside a string that this quote opened, and its length.
pub fn inside(quote: Quote, text: &[char]) -> (Unit, usize)
    requires { 0 < length text.now }
    ensures { IsLongest (spec.inside quote) text.now result.0 result.1 }
{
    let path = path_len(quote, text);
    if path > 0 {
        return (Unit::Path, path);
    }
    if let Some(c) = unicode_front(text) {
        return (Unit::Char(c), 6);
    }
    match longest(units(quote), text) {
        Some(found) => found,
        None => (Unit::Char(at(text, 0)), 1),
    }
}
