ghost use Rattle.std.specs.Prelude.{◌≡◌, ◌<◌, ◌++◌, length, IfOk, string_bytes};
ghost use Rattle.gv_search.specs.Texts as spec;

use crate::cut::{behind, cut_first};
use gv_base::OutOfMemory;
use memchr::memmem::Finder;
use std::alloc::Global;

/// The text with another for each part that stands in it, from the left and not overlapping. An empty part puts the other
/// text before each character and at the end. OutOfMemory where memory is wanting.
pub fn replaced(alloc: Global, text: &str, part: &str, with: &str) -> Result<String, OutOfMemory>
    ensures { IfOk result (λ new. string_bytes new ≡ spec.replaced text.now part.now with.now) }
{
    if part.is_empty() {
        spread(alloc, text, with)
    } else {
        replaced_filled(alloc, text, part, with)
    }
}

/// The text with another before each character and at the end.
fn spread(alloc: Global, text: &str, with: &str) -> Result<String, OutOfMemory>
    ensures { IfOk result (λ new. string_bytes new ≡ spec.spread text.now with.now) }
{
    let mut new = String::new(alloc);
    for c in text.chars() {
        new.push_str(with)?;
        new.push(c)?;
    }
    new.push_str(with)?;
    Ok(new)
}

fn replaced_filled(alloc: Global, text: &str, part: &str, with: &str) -> Result<String, OutOfMemory>
    requires { 0 < length part.now }
    ensures { IfOk result (λ new. string_bytes new ≡ spec.replaced text.now part.now with.now) }
{
    let finder = Finder::new(part.as_bytes());
    let mut new = String::new(alloc);
    let mut rest = text;
    while let Some((before, found)) = cut_first(&finder, rest) {
        new.push_str(before)?;
        new.push_str(with)?;
        rest = behind(found, part);
    }
    new.push_str(rest)?;
    Ok(new)
}

/// The text without the part at its first place; the text itself where the part stands nowhere. OutOfMemory where memory
/// is wanting.
pub fn without_first(alloc: Global, text: &str, part: &str) -> Result<String, OutOfMemory>
    ensures { IfOk result (λ new. string_bytes new ≡ spec.without_first text.now part.now) }
{
    if part.is_empty() {
        String::from_str(alloc, text)
    } else {
        without_filled(alloc, text, part)
    }
}

fn without_filled(alloc: Global, text: &str, part: &str) -> Result<String, OutOfMemory>
    requires { 0 < length part.now }
    ensures { IfOk result (λ new. string_bytes new ≡ spec.without_first text.now part.now) }
{
    match cut_first(&Finder::new(part.as_bytes()), text) {
        Some((before, found)) => joined(alloc, before, behind(found, part)),
        None => String::from_str(alloc, text),
    }
}

fn joined(alloc: Global, front: &str, rest: &str) -> Result<String, OutOfMemory>
    ensures { IfOk result (λ text. string_bytes text ≡ front.now ++ rest.now) }
{
    format!(in alloc; "{front}{rest}")
}
