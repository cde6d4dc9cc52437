//! The flags of members.

ghost use Rattle.std.specs.Prelude.{◌≡◌, ◌≤◌};
ghost use Rattle.gv_declare.specs.Members as spec;

use gv_classes::{FINAL, PRIVATE, PROPERTY, REST, STATIC};
use gv_tree::{Decl, Modifiers};

fn flag(holds: bool, number: u8) -> u8
    ensures flag { result ≡ spec.flag holds number }
    ensures most { result ≤ number }
{
    if holds { number } else { 0 }
}

/// The flags of a method or constructor.
pub(crate) fn method_flags(modifiers: Modifiers, rest: bool) -> u8
    ensures { result ≡ spec.method_flags modifiers rest }
{
    flag(modifiers.is_static, STATIC)
        + flag(modifiers.is_final, FINAL)
        + flag(modifiers.is_private, PRIVATE)
        + flag(rest, REST)
}

/// Whether a declaration of fields with these words before it declares properties.
pub fn is_property(modifiers: Modifiers) -> bool
    ensures { result ≡ spec.is_property modifiers }
{
    !(modifiers.is_public || modifiers.is_private || modifiers.is_protected)
}

/// The flags of the fields that a declaration in a class declares.
pub(crate) fn field_flags(modifiers: Modifiers) -> u8
    ensures { result ≡ spec.field_flags modifiers }
{
    flag(modifiers.is_static, STATIC)
        + flag(modifiers.is_final, FINAL)
        + flag(modifiers.is_private, PRIVATE)
        + flag(is_property(modifiers), PROPERTY)
}

/// The flags of the fields that a declaration with `@Field` declares.
pub(crate) fn decl_flags(decl: &Decl) -> u8
    ensures { result ≡ spec.decl_flags decl.now }
{
    flag(decl.is_final, FINAL) + PROPERTY
}
