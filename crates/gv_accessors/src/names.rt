//! The names of accessors.

ghost use Rattle.std.specs.Prelude.{◌≡◌, string_bytes, IfOk, OnOk};
ghost use Rattle.gv_base.specs.Names.{accessor_text};
ghost use Rattle.gv_accessors.specs.Accessors as spec;

use gv_base::{Name, Names, OutOfMemory};
use std::alloc::Global;

fn spell_accessor(alloc: Global, write: bool, property: &str) -> Result<String, OutOfMemory>
    ensures { IfOk result (λ text. string_bytes text ≡ accessor_text write property.now) }
{
    let prefix = if write { "set" } else { "get" };
    match property.as_bytes() {
        [first @ b'a'..=b'z', ..] => {
            let capital = char::from(first.to_ascii_uppercase());
            let rest = &property[1..];
            format!(in alloc; "{prefix}{capital}{rest}")
        }
        _ => format!(in alloc; "{prefix}{property}"),
    }
}

/// The name of a property's setter where `write` is true, and else of its getter. The table has it from then on.
pub(crate) fn accessor_name(
    alloc: Global,
    names: &mut Names,
    write: bool,
    property: Name,
) -> Result<Name, OutOfMemory>
    ensures name { IfOk result (λ name. name ≡ spec.accessor_name write property names.old) }
    ensures names { OnOk result (names.new ≡ spec.with_accessor write property names.old) }
{
    let text = spell_accessor(alloc, write, names.text(property))?;
    names.intern(text.as_str())
}
