//! The entries of a map that is still to be made.

ghost use Rattle.std.specs.Prelude.{◌≡◌, ◌+◌, ◌≤◌, ◌++◌, [], ◌∷◌, false, length, OnOk, Some};
ghost use Rattle.gv_heap.specs.Entries.{has_key, with_entry};
ghost use Rattle.gv_heap.specs.Heap.{map_at, object_at, pay, with_map};
ghost use Rattle.gv_heap.specs.Keys.{same_key};
ghost use Rattle.gv_heap.specs.Kinds.{IsMapObject};
ghost use Rattle.gv_heap.specs.declared.object.Object.TheVariants.{Map as MapObject};
ghost use Rattle.gv_gathered.specs.Making as spec;
ghost use Rattle.indexmap.specs.IndexMap.{IsUnique};

use gv_base::{ObjId, OutOfMemory, Value};
use gv_heap::{Heap, HeapError, MapKey, Slot};
use indexmap::IndexMap;
use std::alloc::Global;
use std::marker::Model;

/// Entries that a new map is to have. Contracts see their list, in the order in which their keys came.
#[derive(Debug, Drop)]
pub struct Gathered {
    map: IndexMap<MapKey, Slot>,
}

impl Model for Gathered {
    ghost use Rattle.std.specs.Prelude.{List};
    ghost use Rattle.gv_heap.specs.declared.entries.Slot.{Slot};
    ghost use Rattle.gv_heap.specs.declared.key.MapKey.{MapKey};

    ghost Value = { List (MapKey × Slot) };

    ghost view = { λ g. g.map.entries };
}

impl Gathered {
    /// No entries.
    pub fn new(alloc: Global) -> Gathered
        ensures { result ≡ [] }
    {
        Gathered {
            map: IndexMap::new(alloc),
        }
    }

    /// How many entries there are.
    pub fn len(&self) -> usize
        ensures { result ≡ length self.now }
    {
        self.map.len()
    }

    /// Puts a value at a key, as a map does: a key that is there keeps its place and is shown as before.
    pub fn put(&mut self, key: MapKey, shown: Value, value: Value) -> Result<(), OutOfMemory>
        ensures { OnOk result (self.new ≡ with_entry self.old key shown value) }
    {
        let known = self.map.get(&key).map(|slot| slot.shown);
        let shown = known.unwrap_or(shown);
        self.map.insert(key, Slot { shown, value })?;
        Ok(())
    }

    /// Makes the map, for a cell and one for each entry.
    pub fn make(self, heap: &mut Heap) -> Result<ObjId, HeapError>
        ensures { spec.MakesMap heap.old self result heap.new }
    {
        let price = 1 + self.map.len() as u64;
        if heap.cells_left() < price {
            return Err(HeapError::CellsSpent);
        }
        make_paid(heap, self.map)
    }
}

/// The same, where its price is left.
fn make_paid(heap: &mut Heap, entries: IndexMap<MapKey, Slot>) -> Result<ObjId, HeapError>
    requires { 1 + length entries.entries ≤ heap.old.cells }
    ensures { spec.MakesMap heap.old entries.entries result heap.new }
{
    let map = heap.make_map()?;
    put_all(heap, map, entries)?;
    Ok(map)
}

/// Puts entries into an empty map. Their price is left.
fn put_all(heap: &mut Heap, map: ObjId, entries: IndexMap<MapKey, Slot>) -> Result<(), OutOfMemory>
    requires empty { object_at heap.old map ≡ Some (MapObject []) }
    requires fits { length entries.entries ≤ heap.old.cells }
    ensures { OnOk result (heap.new ≡ pay (with_map heap.old map entries.entries) (length entries.entries)) }
{
    for entry in entries {
        put_new(heap, map, entry)?;
    }
    Ok(())
}

/// Puts an entry behind those of a map that hasn't its key. Its price is left.
fn put_new(heap: &mut Heap, map: ObjId, entry: (MapKey, Slot)) -> Result<(), OutOfMemory>
    requires kind { IsMapObject (object_at heap.old map) }
    requires unknown { has_key (map_at heap.old map) entry.0 ≡ false }
    requires fits { 1 ≤ heap.old.cells }
    ensures { OnOk result (heap.new ≡ pay (with_map heap.old map (map_at heap.old map ++ entry ∷ [])) 1) }
{
    let (key, slot) = entry;
    match heap.put(map, key, slot.shown, slot.value) {
        Ok(()) => Ok(()),
        Err(HeapError::OutOfMemory) => Err(OutOfMemory),
        Err(HeapError::CellsSpent) => unreachable!(),
    }
}
