//! The refusals of methods, fields and classes.

ghost use Rattle.std.specs.Prelude.{◌≡◌};
ghost use Rattle.gv_tops.specs.Tops as spec;

use crate::annotations::annotations_refused;
use crate::imports::Imported;
use crate::known::Known;
use crate::noted::noted;
use crate::target::{Target, target_of};
use gv_base::{Refusal, RefusalKind};
use gv_tree::{ClassTree, Constructor, Field, Ident, Member, Method};

fn method_name_refused(known: &Known, ident: Ident, first: Option<Refusal>) -> Option<Refusal>
    ensures { result ≡ spec.method_name_refused known.now ident first }
{
    if ident.name == known.get_property || ident.name == known.set_property {
        noted(RefusalKind::PropertyOverride, ident.place, first)
    } else {
        first
    }
}

/// The first refusal, after those of a method of a class or of the script.
pub(crate) fn method_refused(
    known: &Known,
    imported: Imported,
    method: &Method,
    first: Option<Refusal>,
) -> Option<Refusal>
    ensures { result ≡ spec.method_refused known.now imported method.now first }
{
    let so_far = annotations_refused(
        known,
        imported,
        Target::Other,
        method.annotations.as_slice(),
        first,
    );
    method_name_refused(known, method.ident, so_far)
}

fn constructor_refused(
    known: &Known,
    imported: Imported,
    constructor: &Constructor,
    first: Option<Refusal>,
) -> Option<Refusal>
    ensures { result ≡ spec.constructor_refused known.now imported constructor.now first }
{
    annotations_refused(
        known,
        imported,
        Target::Other,
        constructor.annotations.as_slice(),
        first,
    )
}

/// The first refusal, after those of a declaration in a class.
pub(crate) fn field_refused(
    known: &Known,
    imported: Imported,
    field: &Field,
    first: Option<Refusal>,
) -> Option<Refusal>
    ensures { result ≡ spec.field_refused known.now imported field.now first }
{
    annotations_refused(
        known,
        imported,
        target_of(field.modifiers),
        field.annotations.as_slice(),
        first,
    )
}

fn member_refused(
    known: &Known,
    imported: Imported,
    member: &Member,
    first: Option<Refusal>,
) -> Option<Refusal>
    ensures { result ≡ spec.member_refused known.now imported member.now first }
{
    match member {
        Member::Method(method) => method_refused(known, imported, method, first),
        Member::Constructor(constructor) => constructor_refused(
            known,
            imported,
            constructor,
            first,
        ),
        Member::Field(field) => field_refused(known, imported, field, first),
    }
}

fn members_refused(
    known: &Known,
    imported: Imported,
    members: &[Member],
    first: Option<Refusal>,
) -> Option<Refusal>
    ensures { result ≡ spec.each (spec.member_refused known.now imported) members.now first }
{
    let mut so_far = first;
    for member in members {
        so_far = member_refused(known, imported, member, so_far);
    }
    so_far
}

/// The first refusal, after those of a class.
pub(crate) fn class_refused(
    known: &Known,
    imported: Imported,
    class: &ClassTree,
    first: Option<Refusal>,
) -> Option<Refusal>
    ensures { result ≡ spec.class_refused known.now imported class.now first }
{
    let so_far = annotations_refused(
        known,
        imported,
        Target::Class,
        class.annotations.as_slice(),
        first,
    );
    members_refused(known, imported, class.members.as_slice(), so_far)
}
