ghost use Rattle.std.specs.Prelude.{◌≡◌, ◌+◌, ◌<◌, ◌≤◌, ◌^◌, [], length, IfOk, OnErr, Some};
ghost use Rattle.gv_heap.specs.Kinds.{owner_of};
ghost use Rattle.gv_heap.specs.Prices.{is_piece, gstring_price, closure_price};
ghost use Rattle.gv_heap.specs.declared.object.Object.TheVariants.{Text as TextObject, GString as GStringObject, List as ListObject, Map as MapObject, Range as RangeObject, Closure as ClosureObject, Entry as EntryObject, Instance as InstanceObject, Meta as MetaThing};
ghost use Rattle.gv_heap.specs.declared.closure.Origin.TheVariants.{Written, Bound as BoundOrigin};

use crate::closure::{Bound, Closure, ClosureBox, Origin};
use crate::elements::Elements;
use crate::entries::Entries;
use crate::error::HeapError;
use crate::heap::Heap;
use crate::object::{Instance, Object, Part};
use crate::range::Range;
use gv_base::{BodyId, ClassId, MetaObject, ObjId, OutOfMemory, PlaceId, Text, Value};
use sqlite_items::Items;

impl Heap {
    ghost use Rattle.gv_heap.specs.Heap.{Makes, MakesPlace, Copies, with_new, object_at};
    ghost use Rattle.gv_heap.specs.Kinds.{IsClosureObject};
    ghost use Rattle.gv_heap.specs.Prices.{filled_price, text_price, place_price};
    ghost use Rattle.gv_heap.specs.Ranges.{IsRange};

    /// Makes a list of its elements.
    pub fn make_list(&mut self, items: Vec<Value>) -> Result<ObjId, HeapError>
        ensures { Makes self.old (ListObject items.items) (filled_price items.items) result self.new }
    {
        let price = 1 + items.len() as u64;
        self.make(Object::List(Elements::new(items)), price)
    }

    /// Makes an empty map.
    pub fn make_map(&mut self) -> Result<ObjId, HeapError>
        ensures { Makes self.old (MapObject []) 1 result self.new }
    {
        let entries = Entries::new(self.alloc);
        self.make(Object::Map(entries), 1)
    }

    /// Makes a String.
    pub fn make_text(&mut self, text: &str) -> Result<ObjId, HeapError>
        ensures { Makes self.old (TextObject text.now) (text_price text.now) result self.new }
    {
        let price = 1 + text.len().div_ceil(8) as u64;
        self.afford(price)?;
        let text = Text::from_str(self.alloc, text)?;
        self.make(Object::Text(text), price)
    }

    /// Makes a String and takes no cell, for the literals of a world that is opened or carried on.
    pub fn make_literal(&mut self, text: &str) -> Result<ObjId, OutOfMemory>
        ensures ok { IfOk result (λ id. (id ≡ length self.old.objects) × (self.new ≡ with_new self.old (TextObject text.now))) }
        ensures err { OnErr result (self.new ≡ self.old) }
    {
        let text = Text::from_str(self.alloc, text)?;
        let id = self.objects.len();
        self.objects.push(Object::Text(text))?;
        Ok(id)
    }

    /// Makes a GString of its parts.
    pub fn make_gstring(&mut self, parts: Vec<Part>) -> Result<ObjId, HeapError>
        ensures { Makes self.old (GStringObject parts.items) (gstring_price parts.items) result self.new }
    {
        let price = 1 + priced_parts(parts.as_slice()) as u64;
        self.make(Object::GString(Items::from_vec(parts)), price)
    }

    /// Makes an entry, as a walk hands it to a closure.
    pub fn make_entry(&mut self, key: Value, value: Value) -> Result<ObjId, HeapError>
        ensures { Makes self.old (EntryObject key value) 1 result self.new }
    {
        self.make(Object::Entry { key, value }, 1)
    }

    /// Makes a metaobject.
    pub fn make_meta(&mut self, meta: MetaObject) -> Result<ObjId, HeapError>
        ensures { Makes self.old (MetaThing meta) 1 result self.new }
    {
        self.make(Object::Meta(meta), 1)
    }

    /// Makes a range.
    pub fn make_range(
        &mut self,
        first: i64,
        last: i64,
        open_end: bool,
        long: bool,
    ) -> Result<ObjId, HeapError>
        requires { IsRange first last open_end long }
        ensures { Makes self.old (RangeObject (record { first = first; last = last; open_end = open_end; long = long })) 1 result self.new }
    {
        let range = Range::new(first, last, open_end, long);
        self.make(Object::Range(range), 1)
    }

    /// Makes an instance with its fields. `number` says which instance of the run it is, or 0.
    pub fn make_instance(
        &mut self,
        class: ClassId,
        fields: Vec<Value>,
        number: u64,
    ) -> Result<ObjId, HeapError>
        ensures { Makes self.old (InstanceObject (record { class = class; fields = fields.items; number = number })) (filled_price fields.items) result self.new }
    {
        let price = 1 + fields.len() as u64;
        let instance = Instance {
            class,
            fields: Items::from_vec(fields),
            number,
        };
        self.make(Object::Instance(instance), price)
    }

    /// Makes a closure that is written in a script. Its delegate is at first its owner.
    pub fn make_closure(
        &mut self,
        body: BodyId,
        parameters: usize,
        owner: Value,
        captured: Vec<PlaceId>,
    ) -> Result<ObjId, HeapError>
        ensures { let origin = Written body parameters owner captured.items in Makes self.old (ClosureObject (record { origin = origin; delegate = owner; strategy = 0 })) (closure_price origin) result self.new }
    {
        let price = 1 + captured.len() as u64;
        let delegate = owner;
        let origin = Origin::Written {
            body,
            parameters,
            owner,
            captured: Items::from_vec(captured),
        };
        self.make_of_origin(origin, delegate, 0, price)
    }

    /// Makes a closure of others, or of a method. Its delegate is at first its owner.
    pub fn make_bound(&mut self, bound: Bound) -> Result<ObjId, HeapError>
        ensures { let origin = BoundOrigin bound in Makes self.old (ClosureObject (record { origin = origin; delegate = owner_of bound; strategy = 0 })) (closure_price origin) result self.new }
    {
        let delegate = bound.owner();
        self.make_of_origin(Origin::Bound(bound), delegate, 0, 1)
    }

    /// Makes a copy of a closure, with a delegate and a strategy of its own, for the same price.
    pub fn copy_closure(
        &mut self,
        closure: ObjId,
        delegate: Value,
        strategy: u8,
    ) -> Result<ObjId, HeapError>
        requires kind { IsClosureObject (object_at self.old closure) }
        requires strategy { strategy ≤ 4 }
        ensures { Copies self.old (object_at self.old closure) delegate strategy result self.new }
    {
        match &self.objects[closure] {
            Object::Closure(from) => {
                let price = from.get().origin.price();
                self.afford(price)?;
                let origin = from.get().origin.copy(self.alloc)?;
                self.make_of_origin(origin, delegate, strategy, price)
            }
            _ => unreachable!(),
        }
    }

    /// Makes the place of a variable, which takes a cell where it is priced.
    pub fn make_place(&mut self, value: Value, priced: bool) -> Result<PlaceId, HeapError>
        ensures { MakesPlace self.old value (place_price priced) result self.new }
    {
        let price = u64::from(priced);
        self.afford(price)?;
        let id = self.places.len();
        self.places.push(value).map_err(|_| HeapError::OutOfMemory)?;
        self.cells -= price;
        Ok(id)
    }

    /// Makes a closure for its price.
    fn make_of_origin(
        &mut self,
        origin: Origin,
        delegate: Value,
        strategy: u8,
        price: u64,
    ) -> Result<ObjId, HeapError>
        ensures { Makes self.old (ClosureObject (record { origin = origin; delegate = delegate; strategy = strategy })) price result self.new }
    {
        self.afford(price)?;
        let closure = Closure {
            origin,
            delegate,
            strategy,
        };
        let closure = ClosureBox::new(self.alloc, closure)?;
        self.make(Object::Closure(closure), price)
    }

    /// Makes an object for its price.
    fn make(&mut self, object: Object, price: u64) -> Result<ObjId, HeapError>
        ensures { Makes self.old object price result self.new }
    {
        self.afford(price)?;
        let id = self.objects.len();
        if self.objects.push(object).is_err() {
            return Err(HeapError::OutOfMemory);
        }
        self.cells -= price;
        Ok(id)
    }
}

/// How many parts are no fixed text.
fn priced_parts(parts: &[Part]) -> usize
    ensures count { 1 + result ≡ gstring_price parts.now }
    ensures small { result < 2 ^ 63 }
{
    parts.iter().filter(|part| !is_fixed(part)).count()
}

/// Whether a part is fixed text.
fn is_fixed(part: &Part) -> bool
    ensures { result ≡ is_piece part.now }
{
    match part {
        Part::Piece(_) => true,
        Part::Value(_) | Part::Lazy(_) => false,
    }
}
