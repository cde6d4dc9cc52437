//! One step into a text, from either end.

ghost use Rattle.std.specs.Prelude.{◌≡◌, [], ◌∷◌, ◌++◌, MatchOption, IfSome, IsUtf8};
ghost use Rattle.std.specs.Str.{chars};

/// The first character, and the text behind it.
#[tactic(auto, using(std::proofs::lemmas::Str::chars_past_char))]
pub(crate) fn first_of(text: &str) -> Option<(char, &str)>
    ensures step { MatchOption result (chars text.now ≡ []) (λ step. chars text.now ≡ step.0 ∷ chars step.1.now) }
    ensures text { IfSome result (λ step. IsUtf8 step.1.now) }
{
    let mut characters = text.chars();
    match characters.next() {
        Some(first) => Some((first, characters.as_str())),
        None => None,
    }
}

/// The text before the last character, and that character.
#[tactic(auto, using(crate::proofs::Texts::chars_before_char, crate::proofs::Texts::chars_none))]
pub(crate) fn last_of(text: &str) -> Option<(&str, char)>
    ensures step { MatchOption result (chars text.now ≡ []) (λ step. chars text.now ≡ chars step.0.now ++ step.1 ∷ []) }
    ensures text { IfSome result (λ step. IsUtf8 step.0.now) }
{
    let mut characters = text.chars();
    match characters.next_back() {
        Some(last) => Some((characters.as_str(), last)),
        None => None,
    }
}
