//! The members that declarations of variables declare.

ghost use Rattle.std.specs.Prelude.{◌≡◌, IfOk, OnOk};
ghost use Rattle.gv_declare.specs.Members as spec;

use crate::known::Known;
use crate::types::written_name;
use gv_base::OutOfMemory;
use gv_classes::{Member, MemberKind};
use gv_tree::{Var, VarType};
use sqlite_items::Items;
use std::alloc::Global;

fn field_made(
    alloc: Global,
    known: &Known,
    class: VarType,
    flags: u8,
    var: &Var,
) -> Result<Member, OutOfMemory>
    ensures { IfOk result (λ member. member ≡ spec.field_made known.now class flags var.now) }
{
    let mut types = Items::new(alloc);
    types.push(written_name(known, class))?;
    Ok(Member {
        name: var.ident.name,
        types,
        kind: MemberKind::Field,
        flags,
        place: var.ident.place,
    })
}

/// Puts a field for each variable behind the others.
pub(crate) fn field_members(
    alloc: Global,
    known: &Known,
    class: VarType,
    flags: u8,
    vars: &[Var],
    out: &mut Items<Member>,
) -> Result<(), OutOfMemory>
    ensures { OnOk result (out.new ≡ spec.field_members known.now class flags vars.now out.old) }
{
    for var in vars {
        out.push(field_made(alloc, known, class, flags, var)?)?;
    }
    Ok(())
}
