//! Blanks at the ends of a text.

ghost use Rattle.std.specs.Prelude.{◌≡◌, reverse, encode_utf8_all};
ghost use Rattle.std.specs.Str.{chars};
ghost use Rattle.gv_chars.specs.Chars as spec;

use crate::steps::{first_of, last_of};

/// The text without the characters up to U+0020 at both ends.
pub fn trimmed(text: &str) -> &str
    ensures bytes { result.now ≡ encode_utf8_all (spec.trimmed (chars text.now)) }
    ensures characters { chars result.now ≡ spec.trimmed (chars text.now) }
{
    before_blanks(after_blanks(text))
}

/// The text without the blanks in front.
fn after_blanks(text: &str) -> &str
    ensures { chars result.now ≡ spec.after_blanks (chars text.now) }
{
    let mut rest = text;
    'turns: while let Some((first, after)) = first_of(rest) {
        if first > ' ' {
            return rest;
        }
        rest = after;
    }
    rest
}

/// The text without the blanks behind.
fn before_blanks(text: &str) -> &str
    ensures { chars result.now ≡ reverse (spec.after_blanks (reverse (chars text.now))) }
{
    let mut rest = text;
    'turns: while let Some((before, last)) = last_of(rest) {
        if last > ' ' {
            return rest;
        }
        rest = before;
    }
    rest
}
