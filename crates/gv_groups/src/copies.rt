//! Entries that are taken out of the maps of a heap.

ghost use Rattle.std.specs.Prelude.{◌≡◌, [], IfOk, OnOk};
ghost use Rattle.gv_groups.specs.Gathering as spec;

use gv_base::{OutOfMemory, Text};
use gv_code::Stack;
use gv_gathered::Gathered;
use gv_heap::{Entries, MapKey, Slot};
use std::alloc::Global;

/// Puts a map's entries on a stack, the first one on top.
pub(crate) fn stack_entries(
    alloc: Global,
    held: &Entries,
    entries: &mut Stack<(MapKey, Slot)>,
) -> Result<(), OutOfMemory>
    requires { entries.old ≡ [] }
    ensures { OnOk result (entries.new ≡ held.now) }
{
    let mut at = held.len();
    while at > 0 {
        at -= 1;
        let (key, slot) = held.at(at);
        let key = copy_key(alloc, key)?;
        entries.push((key, slot))?;
    }
    Ok(())
}

/// Gathers a map's entries, each with its key as it was put.
pub(crate) fn gather_entries(
    alloc: Global,
    held: &Entries,
    gathered: &mut Gathered,
) -> Result<(), OutOfMemory>
    ensures { OnOk result (gathered.new ≡ spec.with_entries gathered.old held.now) }
{
    for place in 0..held.len() {
        let (key, slot) = held.at(place);
        let key = copy_key(alloc, key)?;
        gathered.put(key, slot.shown, slot.value)?;
    }
    Ok(())
}

fn copy_key(alloc: Global, key: &MapKey) -> Result<MapKey, OutOfMemory>
    ensures { IfOk result (λ copy. copy ≡ key.now) }
{
    match key {
        MapKey::Null => Ok(MapKey::Null),
        MapKey::Bool(b) => Ok(MapKey::Bool(*b)),
        MapKey::Int(n) => Ok(MapKey::Int(*n)),
        MapKey::Long(n) => Ok(MapKey::Long(*n)),
        MapKey::Text(text) => Ok(MapKey::Text(Text::from_str(alloc, text.as_str())?)),
        MapKey::GText(text) => Ok(MapKey::GText(Text::from_str(alloc, text.as_str())?)),
        MapKey::Class(class) => Ok(MapKey::Class(*class)),
        MapKey::Obj(id) => Ok(MapKey::Obj(*id)),
    }
}
