//! The searches with which methods begin.

ghost use Rattle.std.specs.Prelude.{◌≡◌, [], IfOk, OnOk};
ghost use Rattle.gv_searches.specs.Searches as spec;

use crate::search::Seeking;
use crate::turn::{SearchTurn, turn_of};
use crate::walk::until_asked;
use gv_base::{Names, ObjId, OutOfMemory, Value};
use gv_classes::Classes;
use gv_code::Stack;
use gv_elements::Elements;
use gv_heap::{Entries, Heap, Object};
use std::alloc::Global;

/// The first turn of a search in a list or a range, as it is now; in nothing, where it is another object.
pub fn list_search(
    alloc: Global,
    names: &Names,
    classes: &Classes,
    heap: &mut Heap,
    id: ObjId,
    wanted: Value,
    seeking: Seeking,
) -> Result<SearchTurn, OutOfMemory>
    ensures { spec.Turns heap.old (spec.list_started names.now classes.now heap.old id wanted seeking) result heap.new }
{
    let elements = Elements::at(alloc, heap, id)?;
    let outcome = until_asked(alloc, names, classes, heap, wanted, elements, 0, seeking)?;
    Ok(turn_of(heap, outcome))
}

/// The first turn of whether a map, as it is now, has a value; in nothing, where it is another object.
pub fn map_search(
    alloc: Global,
    names: &Names,
    classes: &Classes,
    heap: &mut Heap,
    id: ObjId,
    wanted: Value,
) -> Result<SearchTurn, OutOfMemory>
    ensures { spec.Turns heap.old (spec.map_started names.now classes.now heap.old id wanted) result heap.new }
{
    let values = values_at(alloc, heap, id)?;
    let outcome = until_asked(alloc, names, classes, heap, wanted, values, 0, Seeking::Has)?;
    Ok(turn_of(heap, outcome))
}

/// The values of a map.
fn values_at(alloc: Global, heap: &Heap, id: ObjId) -> Result<Elements, OutOfMemory>
    ensures { IfOk result (λ values. values ≡ spec.values_at heap.now id) }
{
    let mut values = Stack::new(alloc);
    if let Some(Object::Map(entries)) = heap.get(id) {
        put_values(entries, &mut values)?;
    }
    Ok(Elements::held(values))
}

/// Puts a map's values on a stack, the first one on top.
fn put_values(entries: &Entries, values: &mut Stack<Value>) -> Result<(), OutOfMemory>
    requires { values.old ≡ [] }
    ensures { OnOk result (values.new ≡ spec.values_of entries.now) }
{
    let mut at = entries.len();
    while at > 0 {
        at -= 1;
        let (_, slot) = entries.at(at);
        values.push(slot.value)?;
    }
    Ok(())
}
