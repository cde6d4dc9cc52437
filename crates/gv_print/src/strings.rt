//! Strings and their escapes.

ghost use Rattle.std.specs.Prelude.{◌≡◌, [], ◌∷◌, MatchOption, IfSome, IsUtf8, OnOk};
ghost use Rattle.std.specs.Str.{chars};
ghost use Rattle.gv_print.specs.Texts as spec;

use crate::so_far::Out;
use gv_base::OutOfMemory;

/// In which quotes a string stands.
#[derive(Clone, Copy, Debug, PartialEq, Eq)]
pub enum Quotes {
    /// `'`
    Single,
    /// `"`, where a `$` begins a part.
    Double,
}

/// The first character, and the text behind it.
#[tactic(auto, using(std::proofs::lemmas::Str::chars_past_char))]
fn first_of(text: &str) -> Option<(char, &str)>
    ensures step { MatchOption result (chars text.now ≡ []) (λ step. chars text.now ≡ step.0 ∷ chars step.1.now) }
    ensures text { IfSome result (λ step. IsUtf8 step.1.now) }
{
    let mut characters = text.chars();
    match characters.next() {
        Some(first) => Some((first, characters.as_str())),
        None => None,
    }
}

/// Whether a character has a backslash before it.
fn is_marked(quotes: Quotes, c: char) -> bool
    ensures { result ≡ spec.is_marked quotes c }
{
    match quotes {
        Quotes::Single => c == '\\' || c == '\'',
        Quotes::Double => c == '\\' || c == '"' || c == '$',
    }
}

const DIGITS: [u8; 16] = *b"0123456789ABCDEF";

/// The last hexadecimal digit of a number.
fn hex_digit(number: u32) -> char
    ensures { result ≡ spec.hex_digit number }
{
    char::from(DIGITS[(number % 16) as usize])
}

fn put_unicode(c: u32, out: &mut Out) -> Result<(), OutOfMemory>
    ensures { OnOk result (out.new ≡ spec.unicode_escaped c out.old) }
{
    out.put("\\u")?;
    out.put_char(hex_digit(c / 4096))?;
    out.put_char(hex_digit(c / 256))?;
    out.put_char(hex_digit(c / 16))?;
    out.put_char(hex_digit(c))
}

fn put_control(c: char, out: &mut Out) -> Result<(), OutOfMemory>
    ensures { OnOk result (out.new ≡ spec.control_escaped c out.old) }
{
    match c {
        '\u{8}' => out.put("\\b"),
        '\t' => out.put("\\t"),
        '\n' => out.put("\\n"),
        '\u{C}' => out.put("\\f"),
        '\r' => out.put("\\r"),
        _ => put_unicode(u32::from(c), out),
    }
}

fn put_char(quotes: Quotes, c: char, out: &mut Out) -> Result<(), OutOfMemory>
    ensures { OnOk result (out.new ≡ spec.char_printed quotes c out.old) }
{
    if is_marked(quotes, c) {
        out.put("\\")?;
        out.put_char(c)
    } else if c < ' ' {
        put_control(c, out)
    } else {
        out.put_char(c)
    }
}

/// The characters of a string.
pub(crate) fn put_chars(quotes: Quotes, text: &str, out: &mut Out) -> Result<(), OutOfMemory>
    ensures { OnOk result (out.new ≡ spec.chars_printed quotes text.now out.old) }
{
    let mut rest = text;
    'turns: while let Some((first, after)) = first_of(rest) {
        put_char(quotes, first, out)?;
        rest = after;
    }
    Ok(())
}

/// A string without parts, in its quotes.
pub(crate) fn put_string(text: &str, out: &mut Out) -> Result<(), OutOfMemory>
    ensures { OnOk result (out.new ≡ spec.string_printed text.now out.old) }
{
    out.put("'")?;
    put_chars(Quotes::Single, text, out)?;
    out.put("'")
}
