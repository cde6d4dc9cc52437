//! The numbers that limits may be.

ghost use Rattle.std.specs.Prelude.{◌≡◌, ◌≤◌, IfSome};
ghost use Rattle.std.specs.Char.{is_ascii_digit};
ghost use Rattle.std.specs.List.{list_all};
ghost use Rattle.gv_words.specs.Words as spec;

use crate::asked::Limit;
use gv_base::Limits;

/// The number that a text gives a limit.
pub fn value_of(limit: Limit, text: &str) -> Option<u64>
    ensures value { result ≡ spec.value_of limit text.now }
    ensures within { IfSome result (λ number. number ≤ spec.most limit) }
{
    within(limit, number_of(text)?)
}

/// The value of 1 to 20 ASCII digits.
fn number_of(text: &str) -> Option<u128>
    ensures { result ≡ spec.number_of text.now }
{
    if text.len() > 20 || !are_digits(text) {
        return None;
    }
    text.parse().ok()
}

/// Each byte is an ASCII digit.
fn are_digits(text: &str) -> bool
    ensures { result ≡ list_all is_ascii_digit text.now }
{
    text.bytes().all(|byte| byte.is_ascii_digit())
}

/// The number, where it is from 1 up to the limit's most.
fn within(limit: Limit, number: u128) -> Option<u64>
    ensures value { result ≡ spec.within limit number }
    ensures within { IfSome result (λ number. number ≤ spec.most limit) }
{
    if 1 <= number && number <= u128::from(most(limit)) {
        Some(number as u64)
    } else {
        None
    }
}

/// The most that a limit may be.
fn most(limit: Limit) -> u64
    ensures { result ≡ spec.most limit }
{
    match limit {
        Limit::Ticks => Limits::TICKS,
        Limit::Cells => Limits::CELLS,
        Limit::Depth => u64::from(Limits::DEPTH),
    }
}
