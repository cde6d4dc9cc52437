//! The groups with which methods begin.

ghost use Rattle.std.specs.Prelude.{◌≡◌, IfOk};
ghost use Rattle.gv_heap.specs.Heap.{map_at};
ghost use Rattle.gv_groups.specs.Rows as spec;

use crate::copies::stack_entries;
use crate::group::{Gathering, Group, Pending};
use gv_base::{ObjId, OutOfMemory, Value};
use gv_code::Stack;
use gv_elements::Elements;
use gv_folds::{Handed, Source, map_fold};
use gv_gathered::{Gathered, Groups};
use gv_heap::{Heap, MapKey, Object, Slot};
use std::alloc::Global;

/// `groupBy` of a list or a range.
pub fn group_by(
    alloc: Global,
    heap: &Heap,
    list: ObjId,
    closure: Value,
) -> Result<Group, OutOfMemory>
    ensures { IfOk result (λ group. group ≡ spec.group_by heap.now list closure) }
{
    let source = Source::Plain(Elements::at(alloc, heap, list)?);
    Ok(new_group(closure, source, Gathering::Groups(Groups::new(alloc))))
}

/// `collectEntries` of a list or a range.
pub fn collect_entries(
    alloc: Global,
    heap: &Heap,
    list: ObjId,
    closure: Value,
) -> Result<Group, OutOfMemory>
    ensures { IfOk result (λ group. group ≡ spec.collect_entries heap.now list closure) }
{
    let source = Source::Plain(Elements::at(alloc, heap, list)?);
    Ok(new_group(closure, source, Gathering::Entries(Gathered::new(alloc))))
}

/// `collectEntries` of a map; `takes_two` says that its closure takes keys and values apart.
pub fn collect_map_entries(
    alloc: Global,
    heap: &Heap,
    map: ObjId,
    takes_two: bool,
    closure: Value,
) -> Result<Group, OutOfMemory>
    ensures { IfOk result (λ group. group ≡ spec.collect_map_entries heap.now map takes_two closure) }
{
    let source = map_source(alloc, heap, map, takes_two)?;
    Ok(new_group(closure, source, Gathering::Entries(Gathered::new(alloc))))
}

/// `findAll` of a map; `takes_two` says that its closure takes keys and values apart.
pub fn find_all_entries(
    alloc: Global,
    heap: &Heap,
    map: ObjId,
    takes_two: bool,
    closure: Value,
) -> Result<Group, OutOfMemory>
    ensures { IfOk result (λ group. group ≡ spec.find_all_entries heap.now map takes_two closure) }
{
    let source = map_source(alloc, heap, map, takes_two)?;
    let gathering = Gathering::Found {
        kept: Gathered::new(alloc),
        entries: entries_of(alloc, heap, map)?,
    };
    Ok(new_group(closure, source, gathering))
}

/// The entries of a map, to be handed out.
fn map_source(
    alloc: Global,
    heap: &Heap,
    map: ObjId,
    takes_two: bool,
) -> Result<Source, OutOfMemory>
    ensures { IfOk result (λ source. source ≡ spec.map_source heap.now map takes_two) }
{
    let fold = map_fold(alloc, heap, "each", map, takes_two, Value::Null)?;
    Ok(fold.source)
}

/// The entries of a map with their keys, the first one on top.
fn entries_of(alloc: Global, heap: &Heap, map: ObjId) -> Result<Stack<(MapKey, Slot)>, OutOfMemory>
    ensures { IfOk result (λ entries. entries ≡ map_at heap.now map) }
{
    let mut entries = Stack::new(alloc);
    if let Some(Object::Map(held)) = heap.get(map) {
        stack_entries(alloc, held, &mut entries)?;
    }
    Ok(entries)
}

fn new_group(closure: Value, source: Source, gathering: Gathering) -> Group
    ensures { result ≡ spec.new_group closure source gathering }
{
    Group {
        closure,
        source,
        gathering,
        handed: Handed::Nothing,
        pending: Pending::Answer,
    }
}
