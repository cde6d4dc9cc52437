ghost use Rattle.std.specs.Prelude.{◌≡◌, ◌<◌, ◌≤◌, length, remove, slice_get, slice_set, Some};

use crate::heap::Heap;
use crate::key::MapKey;
use crate::object::Object;
use gv_base::{ObjId, PlaceId, Value};

impl Heap {
    ghost use Rattle.gv_heap.specs.Entries.{value_at, without_key};
    ghost use Rattle.gv_heap.specs.Heap.{object_at, list_at, map_at, with_list, with_map, cleared, closure_changed, instance_changed};
    ghost use Rattle.gv_heap.specs.Kinds.{IsListObject, IsMapObject, IsClosureObject, IsCollection, HasField};

    /// Writes an element of a list.
    pub fn set_item(&mut self, list: ObjId, at: usize, item: Value)
        requires kind { IsListObject (object_at self.old list) }
        requires place { at < length (list_at self.old list) }
        ensures { self.new ≡ with_list self.old list (slice_set (list_at self.old list) at item) }
    {
        match &mut self.objects[list] {
            Object::List(elements) => elements.set(at, item),
            _ => unreachable!(),
        }
    }

    /// Takes an element out of a list.
    pub fn remove_item(&mut self, list: ObjId, at: usize) -> Value
        requires kind { IsListObject (object_at self.old list) }
        requires place { at < length (list_at self.old list) }
        ensures item { slice_get (list_at self.old list) at ≡ Some result }
        ensures rest { self.new ≡ with_list self.old list (remove (list_at self.old list) at) }
    {
        match &mut self.objects[list] {
            Object::List(elements) => elements.remove(at),
            _ => unreachable!(),
        }
    }

    /// Takes a key out of a map, and gives its value; `None` where the key isn't there.
    pub fn remove_key(&mut self, map: ObjId, key: &MapKey) -> Option<Value>
        requires { IsMapObject (object_at self.old map) }
        ensures value { result ≡ value_at (map_at self.old map) key.now }
        ensures rest { self.new ≡ with_map self.old map (without_key (map_at self.old map) key.now) }
    {
        match &mut self.objects[map] {
            Object::Map(entries) => entries.remove(key),
            _ => unreachable!(),
        }
    }

    /// Empties a list or a map.
    pub fn clear(&mut self, object: ObjId)
        requires { IsCollection (object_at self.old object) }
        ensures { self.new ≡ cleared self.old object }
    {
        match &mut self.objects[object] {
            Object::List(elements) => elements.clear(),
            Object::Map(entries) => entries.clear(),
            _ => unreachable!(),
        }
    }

    /// Writes a field of an instance.
    pub fn set_field(&mut self, object: ObjId, field: usize, value: Value)
        requires { HasField (object_at self.old object) field }
        ensures { self.new ≡ instance_changed self.old object (λ i. record i { fields = slice_set i.fields field value }) }
    {
        match &mut self.objects[object] {
            Object::Instance(instance) => instance.fields.set(field, value),
            _ => unreachable!(),
        }
    }

    /// Writes a variable; nothing, where its place isn't there.
    pub fn set_place(&mut self, place: PlaceId, value: Value)
        ensures { self.new ≡ record self.old { places = slice_set self.old.places place value } }
    {
        if place < self.places.len() {
            self.places[place] = value;
        }
    }

    /// Writes a closure's delegate.
    pub fn set_delegate(&mut self, closure: ObjId, delegate: Value)
        requires { IsClosureObject (object_at self.old closure) }
        ensures { self.new ≡ closure_changed self.old closure (λ c. record c { delegate = delegate }) }
    {
        match &mut self.objects[closure] {
            Object::Closure(closure) => closure.set_delegate(delegate),
            _ => unreachable!(),
        }
    }

    /// Writes a closure's strategy.
    pub fn set_strategy(&mut self, closure: ObjId, strategy: u8)
        requires kind { IsClosureObject (object_at self.old closure) }
        requires strategy { strategy ≤ 4 }
        ensures { self.new ≡ closure_changed self.old closure (λ c. record c { strategy = strategy }) }
    {
        match &mut self.objects[closure] {
            Object::Closure(closure) => closure.set_strategy(strategy),
            _ => unreachable!(),
        }
    }
}
