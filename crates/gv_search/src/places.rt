ghost use Rattle.std.specs.Prelude.{◌≡◌, ◌<◌, length};
ghost use Rattle.gv_search.specs.Texts as spec;

use crate::cut::{behind_first, cut_first, cut_last, size};
use memchr::memmem::{Finder, FinderRev};

/// Whether a part stands in a text.
pub fn contains(text: &str, part: &str) -> bool
    ensures { result ≡ spec.contains text.now part.now }
{
    part.is_empty() || contains_filled(text, part)
}

fn contains_filled(text: &str, part: &str) -> bool
    requires { 0 < length part.now }
    ensures { result ≡ spec.contains text.now part.now }
{
    cut_first(&Finder::new(part.as_bytes()), text).is_some()
}

/// Whether a text begins with a part.
pub fn starts_with(text: &str, part: &str) -> bool
    ensures { result ≡ spec.starts_with text.now part.now }
{
    text.starts_with(part)
}

/// Whether a text ends with a part.
pub fn ends_with(text: &str, part: &str) -> bool
    ensures { result ≡ spec.ends_with text.now part.now }
{
    text.ends_with(part)
}

/// The first place, in characters, at which a part stands in a text; 0 for the empty part.
pub fn first_place(text: &str, part: &str) -> Option<usize>
    ensures { result ≡ spec.first_place text.now part.now }
{
    if part.is_empty() {
        Some(0)
    } else {
        first_filled(text, part)
    }
}

fn first_filled(text: &str, part: &str) -> Option<usize>
    requires { 0 < length part.now }
    ensures { result ≡ spec.first_place text.now part.now }
{
    match cut_first(&Finder::new(part.as_bytes()), text) {
        Some((before, _)) => Some(size(before)),
        None => None,
    }
}

/// The last place, in characters, at which a part stands in a text; the size of the text for the empty part.
pub fn last_place(text: &str, part: &str) -> Option<usize>
    ensures { result ≡ spec.last_place text.now part.now }
{
    if part.is_empty() {
        Some(size(text))
    } else {
        last_filled(text, part)
    }
}

fn last_filled(text: &str, part: &str) -> Option<usize>
    requires { 0 < length part.now }
    ensures { result ≡ spec.last_place text.now part.now }
{
    match cut_last(&FinderRev::new(part.as_bytes()), text) {
        Some((before, _)) => Some(size(before)),
        None => None,
    }
}

/// At how many places a part stands in a text, overlapping ones too; for the empty part one more than the size.
/// Where occurrences overlap, the time may be the size of the text times that of the part.
pub fn count_places(text: &str, part: &str) -> usize
    ensures { result ≡ spec.count_places text.now part.now }
{
    if part.is_empty() {
        size(text) + 1
    } else {
        count_filled(text, part)
    }
}

fn count_filled(text: &str, part: &str) -> usize
    requires { 0 < length part.now }
    ensures { result ≡ spec.count_places text.now part.now }
{
    let finder = Finder::new(part.as_bytes());
    let mut count = 0;
    let mut rest = text;
    while let Some((_, found)) = cut_first(&finder, rest) {
        count += 1;
        rest = behind_first(found);
    }
    count
}
