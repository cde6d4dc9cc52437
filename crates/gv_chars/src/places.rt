//! The characters at places of a text, counted from 0.

ghost use Rattle.std.specs.Prelude.{◌≡◌, ◌<◌, [], ◌∷◌, length, reverse, take, drop, map, slice_get, encode_utf8_all, string_bytes, All, IfOk};
ghost use Rattle.std.specs.Str.{chars};
ghost use Rattle.gv_chars.specs.Chars as spec;

use crate::steps::{first_of, last_of};
use gv_base::OutOfMemory;
use std::alloc::Global;

/// How many characters there are.
pub fn char_count(text: &str) -> usize
    ensures { result ≡ length (chars text.now) }
{
    text.chars().count()
}

/// The character at a place, if there is one.
#[tactic(auto, using(crate::proofs::Lists::get_first, crate::proofs::Lists::get_none))]
pub fn char_at(text: &str, at: usize) -> Option<char>
    ensures { result ≡ slice_get (chars text.now) at }
{
    match first_of(behind(text, at)) {
        Some((character, _)) => Some(character),
        None => None,
    }
}

/// What follows so many characters.
#[tactic(auto, using(crate::proofs::Lists::drop_next, crate::proofs::Lists::drop_past))]
pub(crate) fn behind(text: &str, count: usize) -> &str
    ensures { chars result.now ≡ drop count (chars text.now) }
{
    let mut rest = text;
    for passed in 0..count {
        match first_of(rest) {
            Some((_, after)) => rest = after,
            None => return rest,
        }
    }
    rest
}

/// The first so many characters, or all where there are fewer.
pub(crate) fn front(text: &str, count: usize) -> &str
    ensures { chars result.now ≡ take count (chars text.now) }
{
    let rest = behind(text, count);
    text.split_at(text.len() - rest.len()).0
}

/// The characters from the place `from` on, up to before the place `to`.
pub fn part(alloc: Global, text: &str, from: usize, to: usize) -> Result<String, OutOfMemory>
    ensures { IfOk result (λ made. string_bytes made ≡ encode_utf8_all (spec.part from to (chars text.now))) }
{
    String::from_str(alloc, front(behind(text, from), to.saturating_sub(from)))
}

/// The characters at these places, in their order.
pub fn picked(alloc: Global, text: &str, places: &[usize]) -> Result<String, OutOfMemory>
    requires { All (λ place. place < length (chars text.now)) places.now }
    ensures { IfOk result (λ made. string_bytes made ≡ encode_utf8_all (spec.picked places.now (chars text.now))) }
{
    let characters = characters_of(alloc, text)?;
    picked_from(alloc, characters.as_slice(), places)
}

/// The characters in a vector, to be read by their places.
fn characters_of(alloc: Global, text: &str) -> Result<Vec<char>, OutOfMemory>
    ensures { IfOk result (λ characters. characters.items ≡ chars text.now) }
{
    text.chars().collect(alloc)
}

/// Those of the characters at these places.
fn picked_from(alloc: Global, characters: &[char], places: &[usize]) -> Result<String, OutOfMemory>
    requires { All (λ place. place < length characters.now) places.now }
    ensures { IfOk result (λ made. string_bytes made ≡ encode_utf8_all (spec.picked places.now characters.now)) }
{
    let mut made = String::with_capacity(alloc, places.len())?;
    for place in places {
        made.push(characters[*place])?;
    }
    Ok(made)
}

/// The characters backwards.
pub fn reversed(alloc: Global, text: &str) -> Result<String, OutOfMemory>
    ensures { IfOk result (λ made. string_bytes made ≡ encode_utf8_all (reverse (chars text.now))) }
{
    let mut made = String::with_capacity(alloc, text.len())?;
    let mut rest = text;
    'turns: while let Some((before, last)) = last_of(rest) {
        made.push(last)?;
        rest = before;
    }
    Ok(made)
}

/// Each character as a text of its own, in order.
pub fn characters(alloc: Global, text: &str) -> Result<Vec<String>, OutOfMemory>
    ensures { IfOk result (λ made. map string_bytes made.items ≡ map encode_utf8_all (spec.singles (chars text.now))) }
{
    let mut made = Vec::new(alloc);
    let mut rest = text;
    'turns: while let Some((first, after)) = first_of(rest) {
        made.push(single(alloc, first)?)?;
        rest = after;
    }
    Ok(made)
}

/// The text of one character.
pub fn single(alloc: Global, character: char) -> Result<String, OutOfMemory>
    ensures { IfOk result (λ made. string_bytes made ≡ encode_utf8_all (character ∷ [])) }
{
    let mut made = String::new(alloc);
    made.push(character)?;
    Ok(made)
}
