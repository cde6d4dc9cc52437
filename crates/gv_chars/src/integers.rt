//! The integer that a text writes.

ghost use Rattle.std.specs.Prelude.{◌≡◌};
ghost use Rattle.std.specs.Str.{chars};
ghost use Rattle.gv_chars.specs.Chars as spec;

use crate::ends::trimmed;

/// The number from `least` to `greatest` that the trimmed text writes: a sign or none, and one ASCII digit or more, of
/// which any number may be leading zeros. None where it writes something else.
pub fn integer_in(text: &str, least: i64, greatest: i64) -> Option<i64>
    ensures { result ≡ spec.integer_in least greatest (chars text.now) }
{
    within(least, greatest, long_of(trimmed(text))?)
}

/// The number, where it is within these.
fn within(least: i64, greatest: i64, number: i64) -> Option<i64>
    ensures { result ≡ spec.within least greatest number }
{
    if least <= number && number <= greatest {
        Some(number)
    } else {
        None
    }
}

/// The number that a text writes, where it is an `i64`.
fn long_of(text: &str) -> Option<i64>
    ensures { result ≡ spec.long_of (chars text.now) }
{
    text.parse().ok()
}
