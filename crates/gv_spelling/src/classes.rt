//! Classes of characters.

ghost use Rattle.std.specs.Prelude.{◌≡◌, ◌≤◌, ◌<◌, ◌+◌, length, drop, slice_index, true};
ghost use Rattle.std.specs.Char.{is_ascii_digit};
ghost use Rattle.std.specs.List.{prefix_len};
ghost use Rattle.gv_spelling.specs.Table as spec;

/// A class of characters.
#[derive(Clone, Copy, Debug)]
pub enum Class {
    /// What begins a name.
    Start,
    /// What goes on a name.
    Name,
    Blank,
    /// What is no line end.
    NotLine,
}

/// Whether the character is of the class.
#[tactic(auto, unfolding(crate::specs::Table::is_in))]
pub fn is_in(class: Class, c: char) -> bool
    ensures { result ≡ spec.is_in class c }
{
    match class {
        Class::Start => {
            if c.is_ascii() {
                c.is_ascii_alphabetic() || c == '$' || c == '_'
            } else {
                unicode_ident::is_xid_start(c)
            }
        }
        Class::Name => {
            if c.is_ascii() {
                c.is_ascii_alphanumeric() || c == '$' || c == '_'
            } else {
                unicode_ident::is_xid_continue(c)
            }
        }
        Class::Blank => c == ' ' || c == '\t' || c == '\u{c}',
        Class::NotLine => !(c == '\n' || c == '\r'),
    }
}

/// The character at a place.
pub fn at(text: &[char], place: usize) -> char
    requires { place < length text.now }
    ensures { result ≡ slice_index text.now place }
{
    text[place]
}

/// The first place from `from` on whose character isn't of the class.
pub fn past(class: Class, text: &[char], from: usize) -> usize
    requires { from ≤ length text.now }
    ensures value { result ≡ from + prefix_len (spec.is_in class) (drop from text.now) }
    ensures within { result ≤ length text.now }
{
    let mut end = from;
    while end < text.len() && is_in(class, text[end]) {
        end += 1;
    }
    end
}

/// What the first character of a spelling tells.
#[derive(Clone, Copy, Debug)]
pub enum Front {
    Start,
    Digit,
    Blank,
    Slash,
    Minus,
    Other,
}

/// What the spellings that begin with the character are.
#[tactic(auto, unfolding(crate::specs::Table::front_of))]
pub fn front_of(c: char) -> Front
    ensures value { result ≡ spec.front_of c }
    ensures digit { result ≡ Front.Digit → is_ascii_digit c ≡ true }
{
    if is_in(Class::Start, c) {
        Front::Start
    } else if c.is_ascii_digit() {
        Front::Digit
    } else if is_in(Class::Blank, c) {
        Front::Blank
    } else if c == '/' {
        Front::Slash
    } else if c == '-' {
        Front::Minus
    } else {
        Front::Other
    }
}
