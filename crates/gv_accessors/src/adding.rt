//! What properties add to their class.

ghost use Rattle.std.specs.Prelude.{◌≡◌, [], IfOk, OnOk};
ghost use Rattle.gv_classes.specs.declared.declared.MemberKind.TheVariants as kind;
ghost use Rattle.gv_keys.specs.Keys.{key_of, with_members};
ghost use Rattle.gv_accessors.specs.Accessors as spec;

use crate::known::Known;
use crate::names::accessor_name;
use crate::property::Property;
use gv_base::{Name, Names, OutOfMemory, Place};
use gv_classes::{Member, MemberKind};
use gv_declare::written_name;
use gv_keys::{Keys, key};
use gv_tree::{Method, Var, VarType};
use sqlite_items::Items;
use std::alloc::Global;

/// What is added to a class.
#[derive(Drop)]
pub(crate) struct Adding {
    /// The keys of its members by now.
    pub(crate) keys: Keys,
    /// The accessors so far.
    pub(crate) added: Items<Method>,
}

impl Adding {
    fn add_unless_there(&mut self, key: Vec<usize>, method: Method) -> Result<(), OutOfMemory>
        ensures { OnOk result (self.new ≡ spec.added_unless_there key.items method self.old) }
    {
        if self.keys.put(key)? {
            self.added.push(method)?;
        }
        Ok(())
    }

    fn add_getter(
        &mut self,
        alloc: Global,
        names: &mut Names,
        property: Property,
    ) -> Result<(), OutOfMemory>
        ensures { OnOk result ((names.new, self.new) ≡ spec.getter_added property (names.old, self.old)) }
    {
        let name = accessor_name(alloc, names, false, property.ident.name)?;
        let key = method_key(alloc, name, Items::new(alloc), property.ident.place)?;
        self.add_unless_there(key, property.getter(alloc, name)?)
    }

    fn add_setter(
        &mut self,
        alloc: Global,
        known: &Known,
        names: &mut Names,
        property: Property,
    ) -> Result<(), OutOfMemory>
        ensures { OnOk result ((names.new, self.new) ≡ spec.setter_added known.now property (names.old, self.old)) }
    {
        let name = accessor_name(alloc, names, true, property.ident.name)?;
        let mut types = Items::new(alloc);
        types.push(written_name(&known.declare, property.written))?;
        let key = method_key(alloc, name, types, property.ident.place)?;
        self.add_unless_there(key, property.setter(alloc, known.value, name)?)
    }

    fn add_property(
        &mut self,
        alloc: Global,
        known: &Known,
        names: &mut Names,
        property: Property,
    ) -> Result<(), OutOfMemory>
        ensures { OnOk result ((names.new, self.new) ≡ spec.property_added known.now property (names.old, self.old)) }
    {
        self.add_getter(alloc, names, property)?;
        if property.is_final {
            return Ok(());
        }
        self.add_setter(alloc, known, names, property)
    }

    /// Adds the accessors of the properties that a declaration of variables declares.
    pub(crate) fn add_vars(
        &mut self,
        alloc: Global,
        known: &Known,
        names: &mut Names,
        written: VarType,
        is_static: bool,
        is_final: bool,
        vars: &[Var],
    ) -> Result<(), OutOfMemory>
        ensures { OnOk result ((names.new, self.new) ≡ spec.vars_added known.now written is_static is_final vars.now (names.old, self.old)) }
    {
        for var in vars {
            self.add_var(alloc, known, names, written, is_static, is_final, var)?;
        }
        Ok(())
    }

    fn add_var(
        &mut self,
        alloc: Global,
        known: &Known,
        names: &mut Names,
        written: VarType,
        is_static: bool,
        is_final: bool,
        var: &Var,
    ) -> Result<(), OutOfMemory>
        ensures { OnOk result ((names.new, self.new) ≡ spec.property_added known.now (spec.property_of written is_static is_final var.now) (names.old, self.old)) }
    {
        let property = Property {
            ident: var.ident,
            written,
            is_static,
            is_final,
        };
        self.add_property(alloc, known, names, property)
    }
}

/// The key of a method without a rest parameter.
fn method_key(
    alloc: Global,
    name: Name,
    types: Items<Name>,
    place: Place,
) -> Result<Vec<usize>, OutOfMemory>
    ensures { IfOk result (λ k. k.items ≡ key_of kind.Method name 0 types) }
{
    let member = Member {
        name,
        types,
        kind: MemberKind::Method,
        flags: 0,
        place,
    };
    key(alloc, &member)
}

/// The keys of the members of a class.
pub(crate) fn keys_of(alloc: Global, members: &[Member]) -> Result<Keys, OutOfMemory>
    ensures { IfOk result (λ keys. keys ≡ with_members [] members.now) }
{
    let mut keys = Keys::new(alloc);
    keys.put_members(alloc, members)?;
    Ok(keys)
}
