// Cuts a text where a part stands that isn't empty.
ghost use Rattle.std.specs.Prelude.{◌≡◌, ◌<◌, ◌+◌, true, length, drop, MatchOption};
ghost use Rattle.std.specs.Str.{chars, IsUtf8};
ghost use Rattle.gv_search.specs.Search.{starts};
ghost use Rattle.gv_search.specs.Cuts.{IsNowhere, IsFirstCut, IsLastCut};

use memchr::memmem::{Finder, FinderRev};

/// The text before the first place of a part, and the text from there on; None where the part stands nowhere.
pub(crate) fn cut_first<'t>(part: &Finder<'_>, text: &'t str) -> Option<(&'t str, &'t str)>
    requires utf8 { IsUtf8 part.now }
    requires filled { 0 < length part.now }
    ensures { MatchOption result (IsNowhere text.now part.now) (λ x. IsFirstCut text.now part.now x.0.now x.1.now) }
{
    match part.find(text.as_bytes()) {
        Some(at) => Some(text.split_at(at)),
        None => None,
    }
}

/// The text before the last place of a part, and the text from there on.
pub(crate) fn cut_last<'t>(part: &FinderRev<'_>, text: &'t str) -> Option<(&'t str, &'t str)>
    requires utf8 { IsUtf8 part.now }
    requires filled { 0 < length part.now }
    ensures { MatchOption result (IsNowhere text.now part.now) (λ x. IsLastCut text.now part.now x.0.now x.1.now) }
{
    match part.rfind(text.as_bytes()) {
        Some(at) => Some(text.split_at(at)),
        None => None,
    }
}

/// How many characters a text has.
pub(crate) fn size(text: &str) -> usize
    ensures { result ≡ length (chars text.now) }
{
    text.chars().count()
}

/// The text without its first character.
pub(crate) fn behind_first(text: &str) -> &str
    ensures rest { chars result.now ≡ drop 1 (chars text.now) }
    ensures shorter { 0 < length text.now → length result.now < length text.now }
{
    let mut characters = text.chars();
    match characters.next() {
        Some(_) => characters.as_str(),
        None => "",
    }
}

/// The text behind a part that begins it.
pub(crate) fn behind<'t>(text: &'t str, part: &str) -> &'t str
    requires { starts (chars text.now) (chars part.now) ≡ true }
    ensures rest { chars result.now ≡ drop (length (chars part.now)) (chars text.now) }
    ensures shorter { length result.now + length part.now ≡ length text.now }
{
    let (_, rest) = text.split_at(part.len());
    rest
}
