//! The heap, as it is made.

ghost use Rattle.std.specs.Prelude.{◌≡◌, true};
ghost use Rattle.gv_heap.specs.Heap.{object_at};
ghost use Rattle.gv_heap.specs.Kinds.{IsMapObject};

use crate::objects::{
    A, AX, EMPTY, ENTRY, F, ITEM, ITEMS, LIST, LONGS, MAP, NESTED, NO_LIST, OF_AX, OF_PIECES,
    OTHER, PIECES, TWIN, UP, X,
};
use gv_base::{Chosen, MetaObject, Names, Text, Value};
use gv_classes::{BUILT_IN, Classes, STRING};
use gv_heap::{Heap, Object, Part};
use gv_rows::key_of;
use std::alloc::Global;
use std::test::Fail;

const TEXTS: [&str; 5] = ["", "a", "x", "ax", "n=1"];

const METAS: [MetaObject; 3] = [
    MetaObject::Class {
        of: Value::Class(STRING),
        side: false,
    },
    MetaObject::Member {
        of: Value::Class(STRING),
        side: true,
        name: 0,
    },
    MetaObject::Method {
        name: 0,
        body: Chosen::Native(0),
    },
];

const ENTRIES: [(Value, Value); 4] = [
    (A, Value::Int(1)),
    (A, Value::Int(1)),
    (X, ENTRY),
    (ITEM, LIST),
];

/// The pieces of a string with parts, then its values, then its closures.
const STRINGS: [(&[&str], &[Value], &[usize]); 7] = [
    (&[], &[], &[]),
    (&[""], &[EMPTY], &[]),
    (&["a", "x"], &[], &[]),
    (&["n="], &[Value::Int(1)], &[]),
    (&["n="], &[Value::Int(1)], &[5]),
    (&[], &[], &[5]),
    (&[], &[ITEM], &[]),
];

const LISTS: [&[Value]; 18] = [
    &[],
    &[Value::Int(1), A],
    &[Value::Long(1), A],
    &[Value::Int(1), Value::Int(2), Value::Int(3)],
    &[Value::Int(1), ITEM, X],
    &[Value::Int(2), ITEM, X],
    &[NO_LIST, LIST],
    &[NO_LIST, LONGS],
    &[LIST, NO_LIST],
    &[NESTED, ITEM],
    &[TWIN, OTHER],
    &[UP, MAP, PIECES],
    &[ENTRY, F, Value::Class(STRING)],
    &[ITEMS],
    &[PIECES],
    &[AX],
    &[OF_PIECES],
    &[OF_AX],
];

const MAPS: [&[(Value, Value)]; 9] = [
    &[],
    &[(A, Value::Int(1))],
    &[(X, Value::Int(1))],
    &[(A, LIST)],
    &[(A, LONGS)],
    &[(A, Value::Int(1)), (X, ITEM)],
    &[(X, OTHER), (A, Value::Long(1))],
    &[(Value::Int(1), Value::Null)],
    &[(Value::Long(1), Value::Null)],
];

/// A heap with the objects above.
#[derive(Drop)]
pub struct World {
    pub alloc: Global,
    pub names: Names,
    pub classes: Classes,
    pub heap: Heap,
}

impl World {
    pub fn new(alloc: Global) -> Result<World, Fail> {
        let mut names = Names::new(alloc);
        let classes = Classes::new(alloc, &mut names)?;
        let mut world = World {
            alloc,
            names,
            classes,
            heap: Heap::new(alloc, 999),
        };
        world.make_plain()?;
        world.make_strings()?;
        for elements in LISTS {
            world.heap.make_list(Vec::from_slice(alloc, elements)?)?;
        }
        for entries in MAPS {
            world.make_map(entries)?;
        }
        Ok(world)
    }

    fn make_plain(&mut self) -> Result<(), Fail> {
        let heap = &mut self.heap;
        for text in TEXTS {
            heap.make_literal(text)?;
        }
        for body in 0..2 {
            heap.make_closure(body, 1, Value::Null, Vec::new(self.alloc))?;
        }
        for number in 1..3 {
            heap.make_instance(BUILT_IN, Vec::new(self.alloc), number)?;
        }
        for meta in METAS {
            heap.make_meta(meta)?;
        }
        heap.make_range(1, 3, false, false)?;
        heap.make_range(3, 1, false, false)?;
        heap.make_range(1, 1, true, false)?;
        for (key, value) in ENTRIES {
            heap.make_entry(key, value)?;
        }
        Ok(())
    }

    fn make_strings(&mut self) -> Result<(), Fail> {
        for (pieces, values, closures) in STRINGS {
            let mut parts = Vec::new(self.alloc);
            for piece in pieces {
                parts.push(Part::Piece(Text::from_str(self.alloc, piece)?))?;
            }
            for value in values {
                parts.push(Part::Value(*value))?;
            }
            for closure in closures {
                parts.push(Part::Lazy(*closure))?;
            }
            self.heap.make_gstring(parts)?;
        }
        let before = Part::Piece(Text::from_str(self.alloc, "a")?);
        let behind = Part::Piece(Text::from_str(self.alloc, "x")?);
        let parts = vec![in self.alloc; before, Part::Value(LIST), behind]?;
        self.heap.make_gstring(parts)?;
        Ok(())
    }

    fn make_map(&mut self, entries: &[(Value, Value)]) -> Result<(), Fail> {
        let map = self.heap.make_map()?;
        for (shown, value) in entries {
            let key = key_of(self.alloc, &self.names, &self.classes, &self.heap, *shown)?;
            if let Some(key) = key
                && is_map(&self.heap, map)
            {
                self.heap.put(map, key, *shown, *value)?;
            }
        }
        Ok(())
    }
}

/// The number of the object that a value is; 0 for another value.
pub fn object_of(value: Value) -> usize {
    match value {
        Value::Obj(id) => id,
        _ => 0,
    }
}

fn is_map(heap: &Heap, id: usize) -> bool
    ensures { result ≡ true → IsMapObject (object_at heap.now id) }
{
    matches!(heap.get(id), Some(Object::Map(_)))
}
