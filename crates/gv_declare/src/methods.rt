//! The members that methods and constructors declare.

ghost use Rattle.std.specs.Prelude.{◌≡◌, IfOk, OnOk};
ghost use Rattle.gv_declare.specs.Members as spec;

use crate::flags::method_flags;
use crate::known::Known;
use crate::params::{defaults, has_rest, param_types};
use gv_base::OutOfMemory;
use gv_classes::{Member, MemberKind};
use gv_tree::{Constructor, Ident, Method, Modifiers, Param};
use sqlite_items::Items;
use std::alloc::Global;

/// What a method or a constructor has beside its parameters.
#[derive(Clone, Copy)]
struct Head {
    kind: MemberKind,
    ident: Ident,
    modifiers: Modifiers,
}

/// The one with so many of its defaults.
fn version(
    alloc: Global,
    known: &Known,
    head: Head,
    params: &[Param],
    optional: usize,
) -> Result<Member, OutOfMemory>
    ensures { IfOk result (λ member. member ≡ spec.version known.now head.kind head.ident head.modifiers params.now optional) }
{
    Ok(Member {
        name: head.ident.name,
        types: param_types(alloc, known, optional, params)?,
        kind: head.kind,
        flags: method_flags(head.modifiers, has_rest(optional, params)),
        place: head.ident.place,
    })
}

/// The one with all its parameters, and for each default one more, the longest first.
fn versions(
    alloc: Global,
    known: &Known,
    head: Head,
    params: &[Param],
    out: &mut Items<Member>,
) -> Result<(), OutOfMemory>
    ensures { OnOk result (out.new ≡ spec.versions (spec.version known.now head.kind head.ident head.modifiers params.now) (spec.defaults params.now) out.old) }
{
    let mut optional = defaults(params);
    while optional > 0 {
        out.push(version(alloc, known, head, params, optional)?)?;
        optional -= 1;
    }
    out.push(version(alloc, known, head, params, 0)?)?;
    Ok(())
}

/// Puts the members that a method declares behind the others.
pub(crate) fn method_members(
    alloc: Global,
    known: &Known,
    method: &Method,
    out: &mut Items<Member>,
) -> Result<(), OutOfMemory>
    ensures { OnOk result (out.new ≡ spec.method_members known.now method.now out.old) }
{
    let head = Head {
        kind: MemberKind::Method,
        ident: method.ident,
        modifiers: method.modifiers,
    };
    versions(alloc, known, head, method.params.as_slice(), out)
}

/// Puts the members that a constructor declares behind the others.
pub(crate) fn constructor_members(
    alloc: Global,
    known: &Known,
    constructor: &Constructor,
    out: &mut Items<Member>,
) -> Result<(), OutOfMemory>
    ensures { OnOk result (out.new ≡ spec.constructor_members known.now constructor.now out.old) }
{
    let head = Head {
        kind: MemberKind::Constructor,
        ident: constructor.ident,
        modifiers: constructor.modifiers,
    };
    versions(alloc, known, head, constructor.params.as_slice(), out)
}
