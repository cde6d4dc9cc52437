//! Classes with the accessors of their properties.

ghost use Rattle.std.specs.Prelude.{◌≡◌, ◌++◌, map, IfOk, OnOk};
ghost use Rattle.gv_tree.specs.declared.top.Member.TheVariants as member;
ghost use Rattle.gv_accessors.specs.Accessors as spec;

use crate::adding::{Adding, keys_of};
use crate::known::Known;
use crate::turned::turned;
use gv_base::{Names, OutOfMemory};
use gv_declare::{declare_class, is_property};
use gv_tree::{ClassTree, Member, Method};
use sqlite_items::Items;
use std::alloc::Global;

/// A class with the accessors of its properties behind its other members.
pub(crate) fn convert_class(
    alloc: Global,
    known: &Known,
    names: &mut Names,
    class: ClassTree,
) -> Result<ClassTree, OutOfMemory>
    ensures { IfOk result (λ made. (names.new, made) ≡ spec.class_converted known.now class names.old) }
{
    let declared = declare_class(alloc, &known.declare, &class)?;
    let mut adding = Adding {
        keys: keys_of(alloc, declared.members.as_slice())?,
        added: Items::new(alloc),
    };
    add_members(alloc, known, names, class.members.as_slice(), &mut adding)?;
    Ok(ClassTree {
        members: with_methods(alloc, class.members, adding.added)?,
        ..class
    })
}

fn add_members(
    alloc: Global,
    known: &Known,
    names: &mut Names,
    members: &[Member],
    adding: &mut Adding,
) -> Result<(), OutOfMemory>
    ensures { OnOk result ((names.new, adding.new) ≡ spec.each (spec.member_added known.now) members.now (names.old, adding.old)) }
{
    for member in members {
        add_member(alloc, known, names, member, adding)?;
    }
    Ok(())
}

fn add_member(
    alloc: Global,
    known: &Known,
    names: &mut Names,
    member: &Member,
    adding: &mut Adding,
) -> Result<(), OutOfMemory>
    ensures { OnOk result ((names.new, adding.new) ≡ spec.member_added known.now member.now (names.old, adding.old)) }
{
    if let Member::Field(field) = member {
        let words = field.modifiers;
        if is_property(words) {
            let vars = field.vars.as_slice();
            adding.add_vars(
                alloc,
                known,
                names,
                field.written,
                words.is_static,
                words.is_final,
                vars,
            )?;
        }
    }
    Ok(())
}

fn with_methods(
    alloc: Global,
    members: Items<Member>,
    methods: Items<Method>,
) -> Result<Items<Member>, OutOfMemory>
    ensures { IfOk result (λ made. made ≡ members ++ map (λ m. member.Method m) methods) }
{
    let mut made = members;
    let mut left = turned(alloc, methods)?;
    while let Some(method) = left.pop() {
        made.push(Member::Method(method))?;
    }
    Ok(made)
}
