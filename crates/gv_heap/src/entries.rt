ghost use Rattle.std.specs.Prelude.{◌≡◌, ◌↔◌, ◌<◌, [], length, slice_get, IsTrue, OnOk, OnErr, Some};
ghost use Rattle.gv_heap.specs.Entries.{value_at, has_key, shown_at, without_key};
ghost use Rattle.gv_heap.specs.Keys.{same_key};
ghost use Rattle.indexmap.specs.IndexMap.{insert_entry};

use crate::key::MapKey;
use gv_base::{OutOfMemory, Value};
use indexmap::IndexMap;
use std::alloc::Global;
use std::marker::Model;

/// What a map keeps at a key: the key as a script sees it, and the value.
#[derive(Clone, Copy, Debug, PartialEq, Eq)]
pub struct Slot {
    pub shown: Value,
    pub value: Value,
}

/// The entries of a map, which contracts see as their list, in the order in which their keys came.
#[derive(Debug, Drop)]
pub struct Entries {
    map: Option<Box<IndexMap<MapKey, Slot>>>,
    alloc: Global,
}

impl Model for Entries {
    ghost use Rattle.std.specs.Prelude.{List};
    ghost use Rattle.gv_heap.specs.declared.key.MapKey.{MapKey};
    ghost use Rattle.gv_heap.specs.declared.entries.Slot.{Slot};

    ghost Value = { List (MapKey × Slot) };

    ghost use Rattle.std.specs.Option.{option_map_or};
    ghost use Rattle.std.specs.Prelude.{[]};

    ghost view = { λ e. option_map_or (λ map. map.value.entries) e.map [] };
}

impl Entries {
    /// How many entries there are.
    pub fn len(&self) -> usize
        ensures { result ≡ length self.now }
    {
        match &self.map {
            Some(map) => map.len(),
            None => 0,
        }
    }

    /// Whether there are none.
    pub fn is_empty(&self) -> bool
        ensures { IsTrue result ↔ (self.now ≡ []) }
    {
        self.len() == 0
    }

    /// The entry at a place, counted from 0.
    pub fn at(&self, place: usize) -> (&MapKey, Slot)
        requires { place < length self.now }
        ensures { slice_get self.now place ≡ Some (result.0.now, result.1) }
    {
        let Some(map) = &self.map else { unreachable!() };
        let Some((key, slot)) = map.get_index(place) else {
            unreachable!()
        };
        (key, *slot)
    }

    /// The value at a key.
    pub fn get(&self, key: &MapKey) -> Option<Value>
        ensures { result ≡ value_at self.now key.now }
    {
        match &self.map {
            Some(map) => map.get(key).map(|slot| slot.value),
            None => None,
        }
    }

    /// Whether a key is there.
    pub fn contains(&self, key: &MapKey) -> bool
        ensures { result ≡ has_key self.now key.now }
    {
        match &self.map {
            Some(map) => map.contains_key(key),
            None => false,
        }
    }

    /// How a key that is there is shown.
    pub fn shown(&self, key: &MapKey) -> Option<Value>
        ensures { result ≡ shown_at self.now key.now }
    {
        match &self.map {
            Some(map) => map.get(key).map(|slot| slot.shown),
            None => None,
        }
    }

    pub(crate) fn new(alloc: Global) -> Entries
        ensures { result ≡ [] }
    {
        Entries { map: None, alloc }
    }

    /// Puts what is kept at a key. A key that is there keeps its place.
    pub(crate) fn put(&mut self, key: MapKey, slot: Slot) -> Result<(), OutOfMemory>
        ensures ok { OnOk result (self.new ≡ insert_entry same_key self.old key slot) }
        ensures err { OnErr result (self.new ≡ self.old) }
    {
        if self.map.is_none() {
            self.map = Some(Box::new(self.alloc, IndexMap::new(self.alloc))?);
        }
        match &mut self.map {
            Some(map) => {
                map.insert(key, slot)?;
            }
            None => unreachable!(),
        }
        Ok(())
    }

    /// Takes a key's entry out. The others keep their order.
    pub(crate) fn remove(&mut self, key: &MapKey) -> Option<Value>
        ensures value { result ≡ value_at self.old key.now }
        ensures rest { self.new ≡ without_key self.old key.now }
    {
        match &mut self.map {
            Some(map) => map.shift_remove(key).map(|slot| slot.value),
            None => None,
        }
    }

    pub(crate) fn clear(&mut self)
        ensures { self.new ≡ [] }
    {
        self.map = None;
    }
}
