//! Texts repeated, and made longer.

ghost use Rattle.std.specs.Prelude.{◌≡◌, ◌<◌, ◌++◌, length, encode_utf8_all, string_bytes, IfOk, OnOk};
ghost use Rattle.std.specs.Str.{chars};
ghost use Rattle.gv_chars.specs.Chars as spec;

use crate::places::{char_count, front};
use gv_base::OutOfMemory;
use std::alloc::Global;

/// The text so many times, one behind the other.
#[tactic(auto, using(crate::proofs::Texts::copies_of_nothing))]
pub fn repeated(alloc: Global, text: &str, count: usize) -> Result<String, OutOfMemory>
    ensures { IfOk result (λ made. string_bytes made ≡ encode_utf8_all (spec.repeated count (chars text.now))) }
{
    let mut made = String::new(alloc);
    if text.is_empty() {
        return Ok(made);
    }
    push_copies(&mut made, text, count)?;
    Ok(made)
}

/// Puts so many copies behind.
fn push_copies(made: &mut String, text: &str, count: usize) -> Result<(), OutOfMemory>
    ensures { OnOk result (string_bytes made.new ≡ string_bytes made.old ++ encode_utf8_all (spec.repeated count (chars text.now))) }
{
    for done in 0..count {
        made.push_str(text)?;
    }
    Ok(())
}

/// The text with `unit` before it, repeated and cut so that the whole has `size` characters; or the text alone, where
/// it has as many.
pub fn padded_left(
    alloc: Global,
    text: &str,
    size: usize,
    unit: &str,
) -> Result<String, OutOfMemory>
    requires { 0 < length unit.now }
    ensures { IfOk result (λ made. string_bytes made ≡ encode_utf8_all (spec.padded_left size (chars unit.now) (chars text.now))) }
{
    let mut made = String::new(alloc);
    push_filling(&mut made, unit, size.saturating_sub(char_count(text)))?;
    made.push_str(text)?;
    Ok(made)
}

/// The same with `unit` behind the text.
pub fn padded_right(
    alloc: Global,
    text: &str,
    size: usize,
    unit: &str,
) -> Result<String, OutOfMemory>
    requires { 0 < length unit.now }
    ensures { IfOk result (λ made. string_bytes made ≡ encode_utf8_all (spec.padded_right size (chars unit.now) (chars text.now))) }
{
    let mut made = String::from_str(alloc, text)?;
    push_filling(&mut made, unit, size.saturating_sub(char_count(text)))?;
    Ok(made)
}

/// Puts so many characters behind, of `unit` repeated.
fn push_filling(made: &mut String, unit: &str, count: usize) -> Result<(), OutOfMemory>
    requires { 0 < length unit.now }
    ensures { OnOk result (string_bytes made.new ≡ string_bytes made.old ++ encode_utf8_all (spec.filling count (chars unit.now))) }
{
    let size = char_count(unit);
    push_copies(made, unit, count / size)?;
    made.push_str(front(unit, count % size))?;
    Ok(())
}
