//! Names of spellings.

ghost use Rattle.std.specs.Prelude.{◌≡◌, ◌++◌, ℕ, List, IfOk, OnOk, string_bytes};
ghost use Rattle.gv_lex.specs.Lexing.{utf8};
ghost use Rattle.gv_lex.specs.Steps.{IsName};
ghost use Rattle.gv_lex.specs.Tokens.{KeepsNames};

use gv_base::{Name, Names, OutOfMemory};

/// The name of a text.
pub fn intern(names: &mut Names, text: &str) -> Result<Name, OutOfMemory>
    ensures name { IfOk result (λ name. (later : List (List ℕ)) → KeepsNames names.new later → IsName later name text.now) }
    ensures names { KeepsNames names.old names.new }
{
    names.intern(text)
}

/// The name of some characters. The buffer is of any content.
pub fn intern_word(
    names: &mut Names,
    word: &[char],
    buffer: &mut String,
) -> Result<Name, OutOfMemory>
    ensures name { IfOk result (λ name. (later : List (List ℕ)) → KeepsNames names.new later → IsName later name (utf8 word.now)) }
    ensures names { KeepsNames names.old names.new }
{
    buffer.clear();
    push_all(word, buffer)?;
    intern(names, buffer.as_str())
}

/// Appends characters.
fn push_all(word: &[char], buffer: &mut String) -> Result<(), OutOfMemory>
    ensures { OnOk result (string_bytes buffer.new ≡ string_bytes buffer.old ++ utf8 word.now) }
{
    for c in word {
        buffer.push(*c)?;
    }
    Ok(())
}
