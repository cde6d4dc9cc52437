//! The groups of elements by keys.

ghost use Rattle.std.specs.Prelude.{◌≡◌, ◌++◌, ◌≤◌, [], ◌∷◌, length, IfOk, OnOk, MatchOption, Some, None};
ghost use Rattle.indexmap.specs.IndexMap.{insert_entry};
ghost use Rattle.gv_heap.specs.Keys.{same_key};
ghost use Rattle.gv_gathered.specs.Groups.{with_member};
ghost use Rattle.gv_gathered.specs.Making as spec;

use crate::gathered::Gathered;
use crate::price::{is_left, price_of};
use gv_base::{ObjId, OutOfMemory, Value};
use gv_heap::{Heap, HeapError, MapKey};
use indexmap::IndexMap;
use sqlite_items::Items;
use std::alloc::Global;
use std::marker::Model;

/// The group of a key.
#[derive(Debug, Drop)]
pub struct Members {
    /// The key as a script sees it.
    pub shown: Value,
    pub elements: Items<Value>,
}

/// The groups by their keys. Contracts see their list, in the order in which the keys came.
#[derive(Debug, Drop)]
pub struct Groups {
    map: IndexMap<MapKey, Members>,
    alloc: Global,
}

impl Model for Groups {
    ghost use Rattle.std.specs.Prelude.{List};
    ghost use Rattle.gv_heap.specs.declared.key.MapKey.{MapKey};
    ghost use Rattle.gv_gathered.specs.declared.groups.Members.{Members};

    ghost Value = { List (MapKey × Members) };

    ghost view = { λ g. g.map.entries };
}

impl Groups {
    /// No groups.
    pub fn new(alloc: Global) -> Groups
        ensures { result ≡ [] }
    {
        Groups {
            map: IndexMap::new(alloc),
            alloc,
        }
    }

    /// Puts an element at the end of the group of its key. A key that has no group yet gets one, behind the others.
    pub fn add(&mut self, key: MapKey, shown: Value, element: Value) -> Result<(), OutOfMemory>
        ensures { OnOk result (self.new ≡ with_member self.old key shown element) }
    {
        match self.map.get_mut(&key) {
            Some(members) => {
                members.elements.push(element)?;
            }
            None => {
                let members = first_member(self.alloc, shown, element)?;
                self.map.insert(key, members)?;
            }
        }
        Ok(())
    }

    /// Makes the list of each group, in order, and then the map of them, for the price of all.
    pub fn make(self, alloc: Global, heap: &mut Heap) -> Result<ObjId, HeapError>
        ensures { spec.MakesGroups heap.old self result heap.new }
    {
        let price = price_of(&self.map);
        if !is_left(price, heap.cells_left()) {
            return Err(HeapError::CellsSpent);
        }
        make_paid(alloc, heap, self.map)
    }
}

/// A group with its first element.
fn first_member(alloc: Global, shown: Value, element: Value) -> Result<Members, OutOfMemory>
    ensures { IfOk result (λ members. members ≡ record { shown = shown; elements = element ∷ [] }) }
{
    let mut elements = Items::new(alloc);
    elements.push(element)?;
    Ok(Members { shown, elements })
}

/// The same, where the price is left.
fn make_paid(
    alloc: Global,
    heap: &mut Heap,
    groups: IndexMap<MapKey, Members>,
) -> Result<ObjId, HeapError>
    requires { spec.groups_price groups.entries ≤ heap.old.cells }
    ensures { spec.MakesGroups heap.old groups.entries result heap.new }
{
    let mut entries = Gathered::new(alloc);
    for group in groups {
        make_group(alloc, heap, group, &mut entries)?;
    }
    entries.make(heap)
}

/// Makes the list of a group, and puts it at the group's key.
fn make_group(
    alloc: Global,
    heap: &mut Heap,
    group: (MapKey, Members),
    entries: &mut Gathered,
) -> Result<(), OutOfMemory>
    ensures { OnOk result ((heap.new ≡ spec.with_list_of heap.old group.1) × (entries.new ≡ spec.with_group entries.old (length heap.old.objects) group)) }
{
    let (key, members) = group;
    let elements = Vec::from_slice(alloc, members.elements.as_slice())?;
    match heap.make_list(elements) {
        Ok(list) => entries.put(key, members.shown, Value::Obj(list)),
        Err(_) => Err(OutOfMemory),
    }
}
