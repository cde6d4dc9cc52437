ghost use Rattle.std.specs.Prelude.{◌≡◌, [], IfOk};
ghost use Rattle.gv_repeats.specs.Repeats as spec;

use gv_base::{ClassId, OutOfMemory, Place, Refusal, RefusalKind};
use gv_classes::{Classes, Declared, Member, MemberKind};
use gv_keys::{Keys, key};
use gv_refusals::earlier;
use std::alloc::Global;

/// The first refusal of what a file declares a second time, of all the declared classes, or one that was found before where that
/// stands first; None where there is none.
pub fn first_of_repeats(
    alloc: Global,
    classes: &Classes,
    file: u8,
    mut first: Option<Refusal>,
) -> Result<Option<Refusal>, OutOfMemory>
    ensures { IfOk result (λ refusal. refusal ≡ spec.repeats_refused classes.now file first) }
{
    for number in 0..classes.len() {
        first = class_refused(alloc, classes, file, number, classes.get(number), first)?;
    }
    Ok(first)
}

fn class_refused(
    alloc: Global,
    classes: &Classes,
    file: u8,
    number: ClassId,
    class: &Declared,
    first: Option<Refusal>,
) -> Result<Option<Refusal>, OutOfMemory>
    ensures { IfOk result (λ refusal. refusal ≡ spec.class_refused classes.now file number class.now first) }
{
    let first = name_refused(classes, file, number, class, first);
    members_refused(alloc, file, class.members.as_slice(), first)
}

fn name_refused(
    classes: &Classes,
    file: u8,
    number: ClassId,
    class: &Declared,
    first: Option<Refusal>,
) -> Option<Refusal>
    ensures { result ≡ spec.name_refused classes.now file number class.now first }
{
    match classes.named(class.name) {
        Some(named) if named == number => first,
        _ => noted(file, RefusalKind::NameDeclaredTwice, class.place, first),
    }
}

fn members_refused(
    alloc: Global,
    file: u8,
    members: &[Member],
    mut first: Option<Refusal>,
) -> Result<Option<Refusal>, OutOfMemory>
    ensures { IfOk result (λ refusal. refusal ≡ spec.members_refused file [] members.now first) }
{
    let mut keys = Keys::new(alloc);
    for member in members {
        if !keys.put(key(alloc, member)?)? {
            first = noted(file, refusal_of(member.kind), member.place, first);
        }
    }
    Ok(first)
}

fn refusal_of(kind: MemberKind) -> RefusalKind
    ensures { result ≡ spec.refusal_of kind }
{
    match kind {
        MemberKind::Field => RefusalKind::NameDeclaredTwice,
        MemberKind::Method | MemberKind::Constructor => RefusalKind::MethodDeclaredTwice,
    }
}

fn noted(file: u8, kind: RefusalKind, place: Place, first: Option<Refusal>) -> Option<Refusal>
    ensures { result ≡ spec.noted file kind place first }
{
    if place.file == file {
        earlier(first, Refusal { kind, place })
    } else {
        first
    }
}
