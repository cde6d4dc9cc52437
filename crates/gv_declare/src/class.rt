//! What a class declares.

ghost use Rattle.std.specs.Prelude.{◌≡◌, IfOk, OnOk};
ghost use Rattle.gv_classes.specs.Classes.{AreRestsTyped};
ghost use Rattle.gv_declare.specs.Members as spec;

use crate::fields::field_members;
use crate::flags::field_flags;
use crate::known::Known;
use crate::methods::{constructor_members, method_members};
use gv_base::{Name, OutOfMemory};
use gv_classes::{Declared, Member};
use gv_tree::{ClassTree, Ident, Member as MemberTree};
use sqlite_items::Items;
use std::alloc::Global;

/// What a class declares itself. Its superclass is Object where none is written.
pub fn declare_class(
    alloc: Global,
    known: &Known,
    class: &ClassTree,
) -> Result<Declared, OutOfMemory>
    ensures declared { IfOk result (λ declared. declared ≡ spec.class_declared known.now class.now) }
    ensures rests { IfOk result (λ declared. AreRestsTyped declared) }
{
    let mut members = Items::new(alloc);
    class_members(alloc, known, class.members.as_slice(), &mut members)?;
    Ok(Declared {
        name: class.ident.name,
        above: above(known, class.superclass),
        intercepts: intercepts(known, class.interface),
        place: class.ident.place,
        members,
    })
}

fn above(known: &Known, superclass: Option<Ident>) -> Name
    ensures { result ≡ spec.above known.now superclass }
{
    match superclass {
        Some(ident) => ident.name,
        None => known.object,
    }
}

fn intercepts(known: &Known, interface: Option<Ident>) -> bool
    ensures { result ≡ spec.intercepts known.now interface }
{
    match interface {
        Some(ident) => ident.name == known.interceptable,
        None => false,
    }
}

fn class_members(
    alloc: Global,
    known: &Known,
    members: &[MemberTree],
    out: &mut Items<Member>,
) -> Result<(), OutOfMemory>
    ensures { OnOk result (out.new ≡ spec.each (spec.member_members known.now) members.now out.old) }
{
    for member in members {
        member_members(alloc, known, member, out)?;
    }
    Ok(())
}

fn member_members(
    alloc: Global,
    known: &Known,
    member: &MemberTree,
    out: &mut Items<Member>,
) -> Result<(), OutOfMemory>
    ensures { OnOk result (out.new ≡ spec.member_members known.now member.now out.old) }
{
    match member {
        MemberTree::Method(method) => method_members(alloc, known, method, out),
        MemberTree::Constructor(constructor) => {
            constructor_members(alloc, known, constructor, out)
        }
        MemberTree::Field(field) => field_members(
            alloc,
            known,
            field.written,
            field_flags(field.modifiers),
            field.vars.as_slice(),
            out,
        ),
    }
}
