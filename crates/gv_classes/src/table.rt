//! A list of classes with their names looked up in one step.
ghost use Rattle.std.specs.Prelude.{◌≡◌, ◌<◌, [], ◌∷◌, ◌++◌, length, slice_get, nat_eq, IfSome, Some, None, OnOk, OnErr, ℕ, List, if◌then◌else◌, unwrap_or};
ghost use Rattle.indexmap.specs.IndexMap.{get};
ghost use Rattle.gv_classes.specs.Classes as spec;
ghost use Rattle.gv_classes.specs.declared.declared.Declared.{Declared as Class};

use crate::declared::Declared;
use gv_base::{ClassId, Name, OutOfMemory};
use indexmap::IndexMap;
use std::alloc::Global;
use std::marker::Model;

/// Classes, which contracts see as their list.
#[derive(Drop)]
pub struct Table {
    classes: Vec<Declared>,
    /// The first class of each name.
    by_name: IndexMap<Name, ClassId>,
}

impl Model for Table {
    ghost use Rattle.std.specs.Prelude.{◌≡◌, List, ℕ, nat_eq};
    ghost use Rattle.indexmap.specs.IndexMap.{get};
    ghost use Rattle.gv_classes.specs.declared.declared.Declared.{Declared as Class};
    ghost use Rattle.gv_classes.specs.Classes as spec;

    ghost Value = { List Class };

    ghost view = { λ table. table.classes.items };

    ghost invariant = { λ table. (name : ℕ) → get nat_eq table.by_name name ≡ spec.named table.classes.items name };
}

impl Table {
    /// No class.
    pub fn new(alloc: Global) -> Table
        ensures { result ≡ [] }
    {
        Table {
            classes: Vec::new(alloc),
            by_name: IndexMap::new(alloc),
        }
    }

    /// Puts a class behind the others.
    pub fn push(&mut self, class: Declared) -> Result<(), OutOfMemory>
        ensures ok { OnOk result (self.new ≡ self.old ++ class ∷ []) }
        ensures err { OnErr result (self.new ≡ self.old) }
    {
        push_to(&mut self.classes, &mut self.by_name, class)
    }

    /// How many classes there are.
    pub fn len(&self) -> usize
        ensures { result ≡ length self.now }
    {
        self.classes.len()
    }

    /// The first class of a name.
    pub fn named(&self, name: Name) -> Option<ClassId>
        ensures { result ≡ spec.named self.now name }
    {
        self.by_name.get(&name).copied()
    }

    /// What is declared of a class.
    pub fn get(&self, class: ClassId) -> &Declared
        requires { class < length self.now }
        ensures { slice_get self.now class ≡ Some result.now }
    {
        &self.classes[class]
    }
}

fn push_to(
    classes: &mut Vec<Declared>,
    named: &mut IndexMap<Name, ClassId>,
    class: Declared,
) -> Result<(), OutOfMemory>
    requires { (name : ℕ) → get nat_eq named.old name ≡ spec.named classes.old.items name }
    ensures ok { OnOk result (classes.new.items ≡ classes.old.items ++ class ∷ []) }
    ensures err { OnErr result (classes.new.items ≡ classes.old.items) }
    ensures named { (name : ℕ) → get nat_eq named.new name ≡ spec.named classes.new.items name }
{
    let name = class.name;
    let id = classes.len();
    classes.push(class)?;
    if let Err(error) = note(named, name, id) {
        classes.pop();
        return Err(error);
    }
    Ok(())
}

/// Notes a class of a name, where that name has none yet.
fn note(named: &mut IndexMap<Name, ClassId>, name: Name, id: ClassId) -> Result<(), OutOfMemory>
    ensures ok { OnOk result ((other : ℕ) → get nat_eq named.new other ≡
        (if nat_eq name other then Some (unwrap_or (get nat_eq named.old name) id) else get nat_eq named.old other)) }
    ensures err { OnErr result ((other : ℕ) → get nat_eq named.new other ≡ get nat_eq named.old other) }
{
    if !named.contains_key(&name) {
        named.insert(name, id)?;
    }
    Ok(())
}
