ghost use Rattle.std.specs.Prelude.{◌≡◌, ◌<◌, length, option_copied, slice_get, Some};
ghost use Rattle.gv_heap.specs.declared.object.Object.TheVariants.{Text as TextObject, GString as GStringObject, Closure as ClosureObject, Instance as InstanceObject};

use crate::closure::Closure;
use crate::entries::Entries;
use crate::heap::Heap;
use crate::object::{Instance, Object, Part};
use gv_base::{ObjId, PlaceId, Value};

impl Heap {
    ghost use Rattle.gv_heap.specs.Heap.{object_at, list_at, map_at};
    ghost use Rattle.gv_heap.specs.Kinds.{IsListObject, IsMapObject, IsTextObject, IsGStringObject, IsClosureObject, IsInstanceObject};

    /// The object of a number.
    pub fn at(&self, id: ObjId) -> &Object
        requires { id < length self.now.objects }
        ensures { object_at self.now id ≡ Some result.now }
    {
        &self.objects[id]
    }

    /// The object of a number, if it is there.
    pub fn get(&self, id: ObjId) -> Option<&Object>
        ensures { option_copied result ≡ object_at self.now id }
    {
        self.objects.get(id)
    }

    /// The elements of a list.
    pub fn list(&self, list: ObjId) -> &[Value]
        requires { IsListObject (object_at self.now list) }
        ensures { result.now ≡ list_at self.now list }
    {
        match &self.objects[list] {
            Object::List(elements) => elements.as_slice(),
            _ => unreachable!(),
        }
    }

    /// The entries of a map.
    pub fn map(&self, map: ObjId) -> &Entries
        requires { IsMapObject (object_at self.now map) }
        ensures { result.now ≡ map_at self.now map }
    {
        match &self.objects[map] {
            Object::Map(entries) => entries,
            _ => unreachable!(),
        }
    }

    /// The text of a String.
    pub fn text(&self, text: ObjId) -> &str
        requires { IsTextObject (object_at self.now text) }
        ensures { object_at self.now text ≡ Some (TextObject result.now) }
    {
        match &self.objects[text] {
            Object::Text(text) => text.as_str(),
            _ => unreachable!(),
        }
    }

    /// The parts of a GString.
    pub fn gstring(&self, gstring: ObjId) -> &[Part]
        requires { IsGStringObject (object_at self.now gstring) }
        ensures { object_at self.now gstring ≡ Some (GStringObject result.now) }
    {
        match &self.objects[gstring] {
            Object::GString(parts) => parts.as_slice(),
            _ => unreachable!(),
        }
    }

    /// A closure.
    pub fn closure(&self, closure: ObjId) -> &Closure
        requires { IsClosureObject (object_at self.now closure) }
        ensures { object_at self.now closure ≡ Some (ClosureObject result.now) }
    {
        match &self.objects[closure] {
            Object::Closure(closure) => closure.get(),
            _ => unreachable!(),
        }
    }

    /// An instance.
    pub fn instance(&self, object: ObjId) -> &Instance
        requires { IsInstanceObject (object_at self.now object) }
        ensures { object_at self.now object ≡ Some (InstanceObject result.now) }
    {
        match &self.objects[object] {
            Object::Instance(instance) => instance,
            _ => unreachable!(),
        }
    }

    /// The value at a place, if it is there.
    pub fn get_place(&self, place: PlaceId) -> Option<Value>
        ensures { result ≡ slice_get self.now.places place }
    {
        self.places.get(place).copied()
    }

    /// The value of a variable.
    pub fn place(&self, place: PlaceId) -> Value
        requires { place < length self.now.places }
        ensures { slice_get self.now.places place ≡ Some result }
    {
        self.places[place]
    }
}
