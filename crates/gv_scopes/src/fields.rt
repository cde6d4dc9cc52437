//! The fields that a class declares itself.

ghost use Rattle.std.specs.Prelude.{◌≡◌, slice_get, IfOk, OnOk};
ghost use Rattle.gv_scopes.specs.Scopes as spec;

use crate::numbers::Numbers;
use gv_base::{ClassId, Name, OutOfMemory};
use gv_classes::{Classes, Declared, Member, MemberKind, STATIC};
use std::alloc::Global;

/// The names of fields, by their numbers, and those of the static ones.
#[derive(Drop)]
pub struct OwnFields {
    names: Numbers,
    statics: Numbers,
}

impl OwnFields {
    pub(crate) fn new(alloc: Global) -> OwnFields
        ensures { result ≡ spec.no_fields }
    {
        OwnFields {
            names: Numbers::new(alloc),
            statics: Numbers::new(alloc),
        }
    }

    /// Those of a class; none where there is no class.
    pub(crate) fn of_class(
        alloc: Global,
        classes: &Classes,
        class: Option<ClassId>,
    ) -> Result<OwnFields, OutOfMemory>
        ensures { IfOk result (λ fields. fields ≡ spec.class_fields classes.now class) }
    {
        match class {
            Some(class) => OwnFields::of_number(alloc, classes, class),
            None => Ok(OwnFields::new(alloc)),
        }
    }

    fn of_number(alloc: Global, classes: &Classes, class: ClassId) -> Result<OwnFields, OutOfMemory>
        ensures { IfOk result (λ fields. fields ≡ spec.fields_in (slice_get classes.now class)) }
    {
        if class < classes.len() {
            OwnFields::of_declared(alloc, classes.get(class))
        } else {
            Ok(OwnFields::new(alloc))
        }
    }

    fn of_declared(alloc: Global, class: &Declared) -> Result<OwnFields, OutOfMemory>
        ensures { IfOk result (λ fields. fields ≡ spec.fields_of class.now.members spec.no_fields) }
    {
        let mut fields = OwnFields::new(alloc);
        fields.put_all(class.members.as_slice())?;
        Ok(fields)
    }

    fn put_all(&mut self, members: &[Member]) -> Result<(), OutOfMemory>
        ensures { OnOk result (self.new ≡ spec.fields_of members.now self.old) }
    {
        for member in members {
            self.put(member)?;
        }
        Ok(())
    }

    fn put(&mut self, member: &Member) -> Result<(), OutOfMemory>
        ensures { OnOk result (self.new ≡ spec.with_member member.now member.now.kind self.old) }
    {
        match member.kind {
            MemberKind::Field => self.put_field(member),
            MemberKind::Method | MemberKind::Constructor => Ok(()),
        }
    }

    fn put_field(&mut self, member: &Member) -> Result<(), OutOfMemory>
        ensures { OnOk result (self.new ≡ spec.with_field member.now self.old) }
    {
        self.names.put(member.name)?;
        if member.flags & STATIC != 0 {
            self.statics.put(member.name)?;
        }
        Ok(())
    }

    /// The number of the field that a name means, where there is an object or where there is none.
    pub(crate) fn find(&self, is_static: bool, name: Name) -> Option<usize>
        ensures { result ≡ spec.own_field self.now is_static name }
    {
        if is_static && !self.statics.contains(name) {
            return None;
        }
        self.names.place_of(name)
    }
}
