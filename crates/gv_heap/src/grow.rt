ghost use Rattle.std.specs.Prelude.{◌≡◌, ◌≤◌, [], ◌∷◌, ◌++◌, length, insert};

use crate::entries::Slot;
use crate::error::HeapError;
use crate::heap::Heap;
use crate::key::MapKey;
use crate::object::Object;
use gv_base::{ObjId, Value};

impl Heap {
    ghost use Rattle.gv_heap.specs.Entries.{with_entry};
    ghost use Rattle.gv_heap.specs.Heap.{Grows, object_at, list_at, map_at, with_list, with_map};
    ghost use Rattle.gv_heap.specs.Kinds.{IsListObject, IsMapObject};
    ghost use Rattle.gv_heap.specs.Prices.{entry_price};

    /// Puts an element at the end of a list.
    pub fn push(&mut self, list: ObjId, item: Value) -> Result<(), HeapError>
        requires { IsListObject (object_at self.old list) }
        ensures { Grows self.old (with_list self.old list (list_at self.old list ++ item ∷ [])) 1 result self.new }
    {
        self.afford(1)?;
        match &mut self.objects[list] {
            Object::List(elements) => elements.push(item)?,
            _ => unreachable!(),
        }
        self.cells -= 1;
        Ok(())
    }

    /// Puts an element into a list before the one of this number, or at the end.
    pub fn insert(&mut self, list: ObjId, at: usize, item: Value) -> Result<(), HeapError>
        requires kind { IsListObject (object_at self.old list) }
        requires place { at ≤ length (list_at self.old list) }
        ensures { Grows self.old (with_list self.old list (insert (list_at self.old list) at item)) 1 result self.new }
    {
        self.afford(1)?;
        match &mut self.objects[list] {
            Object::List(elements) => elements.insert(at, item)?,
            _ => unreachable!(),
        }
        self.cells -= 1;
        Ok(())
    }

    /// Puts a value at a key of a map. A key that is there keeps its place, is shown as before, and
    /// takes no cell.
    pub fn put(
        &mut self,
        map: ObjId,
        key: MapKey,
        shown: Value,
        value: Value,
    ) -> Result<(), HeapError>
        requires { IsMapObject (object_at self.old map) }
        ensures { Grows self.old (with_map self.old map (with_entry (map_at self.old map) key shown value)) (entry_price (map_at self.old map) key) result self.new }
    {
        let known = self.map(map).shown(&key);
        let price = u64::from(known.is_none());
        self.afford(price)?;
        let shown = known.unwrap_or(shown);
        match &mut self.objects[map] {
            Object::Map(entries) => entries.put(key, Slot { shown, value })?,
            _ => unreachable!(),
        }
        self.cells -= price;
        Ok(())
    }

    /// Takes a cell, for a new added member or variable of the binding.
    pub fn take_cell(&mut self) -> Result<(), HeapError>
        ensures { Grows self.old self.old 1 result self.new }
    {
        self.afford(1)?;
        self.cells -= 1;
        Ok(())
    }
}
