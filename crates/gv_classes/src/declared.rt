ghost use Rattle.std.specs.Prelude.{◌≡◌, Some};
ghost use Rattle.std.specs.List.{list_any};
ghost use Rattle.gv_classes.specs.Classes as spec;

use gv_base::{Name, Place};
use sqlite_items::Items;

/// A class: its name, that of its superclass, and the members that it declares itself.
#[derive(Debug, Drop)]
pub struct Declared {
    pub name: Name,
    /// The name of its superclass; Object has its own.
    pub above: Name,
    /// Whether it implements GroovyInterceptable.
    pub intercepts: bool,
    pub place: Place,
    pub members: Items<Member>,
}

/// What a member is.
#[derive(Clone, Copy, Debug, PartialEq, Eq)]
pub enum MemberKind {
    Method,
    Constructor,
    Field,
}

/// A declared member.
#[derive(Debug, Drop)]
pub struct Member {
    pub name: Name,
    /// The names of its parameters' types, or of a field's type.
    pub types: Items<Name>,
    pub kind: MemberKind,
    /// The sum of those of `STATIC`, `FINAL`, `PRIVATE`, `PROPERTY` and `REST` that hold.
    pub flags: u8,
    pub place: Place,
}

pub const STATIC: u8 = 1;

pub const FINAL: u8 = 2;

pub const PRIVATE: u8 = 4;
/// A field that is a property.
pub const PROPERTY: u8 = 8;
/// A method or constructor whose last parameter is a rest parameter.
pub const REST: u8 = 16;

impl Declared {
    /// Whether the class declares a method of a name itself.
    pub fn has_method(&self, name: Name) -> bool
        ensures { result ≡ spec.has_method name (Some self.now) }
    {
        has_method(self.members.as_slice(), name)
    }
}

fn has_method(mut members: &[Member], name: Name) -> bool
    ensures { result ≡ list_any (spec.is_method_named name) members.entry.now }
{
    while let [member, rest @ ..] = members {
        if matches!(member.kind, MemberKind::Method) && member.name == name {
            return true;
        }
        members = rest;
    }
    false
}
