//! The pieces of a text between separators.

ghost use Rattle.std.specs.Prelude.{◌≡◌, ◌≤◌, ◌++◌, [], ◌∷◌, length, map, filter, encode_utf8_all, string_bytes, IfOk, OnOk, IsUtf8};
ghost use Rattle.std.specs.List.{position_or_len, before_first, after_first};
ghost use Rattle.std.specs.Str.{chars};
ghost use Rattle.gv_chars.specs.Chars as spec;

use crate::places::{behind, front};
use crate::steps::first_of;
use gv_base::OutOfMemory;
use std::alloc::Global;

/// The pieces of the text between the characters that stand in `separators`, in order. None is empty.
pub fn pieces(alloc: Global, text: &str, separators: &str) -> Result<Vec<String>, OutOfMemory>
    ensures { IfOk result (λ made. map string_bytes made.items ≡ map encode_utf8_all (spec.pieces (chars separators.now) (chars text.now))) }
{
    let mut made = Vec::new(alloc);
    let mut rest = text;
    'turns: while is_filled(rest) {
        let (piece, after) = cut(rest, separators);
        push_filled(alloc, &mut made, piece)?;
        rest = after;
    }
    Ok(made)
}

/// Puts a piece behind, where it isn't empty.
fn push_filled(alloc: Global, made: &mut Vec<String>, piece: &str) -> Result<(), OutOfMemory>
    ensures { OnOk result (map string_bytes made.new.items ≡ map string_bytes made.old.items ++ map encode_utf8_all (filter spec.is_filled (chars piece.now ∷ []))) }
{
    if is_filled(piece) {
        made.push(String::from_str(alloc, piece)?)?;
    }
    Ok(())
}

/// Whether the text has a character.
#[tactic(auto, using(crate::proofs::Texts::is_filled_bytes))]
fn is_filled(text: &str) -> bool
    ensures { result ≡ spec.is_filled (chars text.now) }
{
    !text.is_empty()
}

/// What stands before the first separator, and what stands behind it.
fn cut<'a>(text: &'a str, separators: &str) -> (&'a str, &'a str)
    ensures before { chars result.0.now ≡ before_first (spec.is_among (chars separators.now)) (chars text.now) }
    ensures text { IsUtf8 result.1.now }
    ensures behind { chars result.1.now ≡ after_first (spec.is_among (chars separators.now)) (chars text.now) }
{
    let size = piece_size(text, separators);
    (front(text, size), behind(text, size + 1))
}

/// How many characters stand before the first separator.
fn piece_size(text: &str, separators: &str) -> usize
    ensures size { result ≡ position_or_len (spec.is_among (chars separators.now)) (chars text.now) }
    ensures within { result ≤ length text.now }
{
    let mut size = 0;
    let mut rest = text;
    'turns: while let Some((first, after)) = first_of(rest) {
        if is_among(separators, first) {
            return size;
        }
        size += 1;
        rest = after;
    }
    size
}

/// Whether the character stands in the text.
fn is_among(set: &str, character: char) -> bool
    ensures { result ≡ spec.is_among (chars set.now) character }
{
    let mut rest = set;
    'turns: while let Some((first, after)) = first_of(rest) {
        if first == character {
            return true;
        }
        rest = after;
    }
    false
}
