//! What was printed so far.

ghost use Rattle.std.specs.Prelude.{◌≡◌, ◌++◌, [], OnOk, encode_utf8, string_bytes};
ghost use Rattle.gv_print.specs.Texts as spec;

use gv_base::OutOfMemory;
use std::alloc::Global;
use std::marker::Model;

/// The text so far, which contracts see as its bytes.
#[derive(Drop)]
pub(crate) struct Out {
    text: String,
}

impl Model for Out {
    ghost use Rattle.std.specs.Prelude.{List, ℕ, string_bytes};

    ghost Value = { List ℕ };

    ghost view = { λ out. string_bytes out.text };
}

impl Out {
    /// No text.
    pub(crate) fn new(alloc: Global) -> Out
        ensures { result ≡ [] }
    {
        Out {
            text: String::new(alloc),
        }
    }

    /// Puts a text behind.
    pub(crate) fn put(&mut self, text: &str) -> Result<(), OutOfMemory>
        ensures { OnOk result (self.new ≡ self.old ++ text.now) }
    {
        self.text.push_str(text)?;
        Ok(())
    }

    /// Puts a character behind.
    pub(crate) fn put_char(&mut self, c: char) -> Result<(), OutOfMemory>
        ensures { OnOk result (self.new ≡ self.old ++ encode_utf8 c) }
    {
        self.text.push(c)?;
        Ok(())
    }

    /// The text as a string.
    pub(crate) fn into_string(self) -> String
        ensures { string_bytes result ≡ self }
    {
        self.text
    }
}

/// Puts a text behind where something holds.
pub(crate) fn put_if(holds: bool, text: &str, out: &mut Out) -> Result<(), OutOfMemory>
    ensures { OnOk result (out.new ≡ spec.put_if holds text.now out.old) }
{
    if holds { out.put(text) } else { Ok(()) }
}

/// Puts a text behind, but before the first of some.
pub(crate) fn part(is_first: bool, text: &str, out: &mut Out) -> Result<(), OutOfMemory>
    ensures { OnOk result (out.new ≡ spec.put_unless is_first text.now out.old) }
{
    if is_first { Ok(()) } else { out.put(text) }
}

/// Two blanks for each level.
pub(crate) fn margin(levels: u32, out: &mut Out) -> Result<(), OutOfMemory>
    ensures { OnOk result (out.new ≡ spec.margin levels out.old) }
{
    if levels == 0 {
        return Ok(());
    }
    out.put("  ")?;
    margin(levels - 1, out)
}

/// The end of a line, and the margin of the next one.
pub(crate) fn new_line(indent: u32, out: &mut Out) -> Result<(), OutOfMemory>
    ensures { OnOk result (out.new ≡ spec.new_line indent out.old) }
{
    out.put("\n")?;
    margin(indent, out)
}

/// One level further in; no tree of the grammar leads to the last one.
pub(crate) fn deeper(indent: u32) -> u32
    ensures { result ≡ spec.deeper indent }
{
    if indent < 4000 { indent + 1 } else { indent }
}
