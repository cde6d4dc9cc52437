ghost use Rattle.std.specs.Prelude.{◌≡◌, ◌++◌, IfOk, OnOk};

use gv_base::{OutOfMemory, Text};
use gv_heap::{Entries, MapKey, Slot};
use std::alloc::Global;

/// A copy of a key.
pub(crate) fn copy_key(alloc: Global, key: &MapKey) -> Result<MapKey, OutOfMemory>
    ensures { IfOk result (λ copy. copy ≡ key.now) }
{
    match key {
        MapKey::Null => Ok(MapKey::Null),
        MapKey::Bool(b) => Ok(MapKey::Bool(*b)),
        MapKey::Int(n) => Ok(MapKey::Int(*n)),
        MapKey::Long(n) => Ok(MapKey::Long(*n)),
        MapKey::Text(text) => Ok(MapKey::Text(Text::from_str(alloc, text.as_str())?)),
        MapKey::GText(text) => Ok(MapKey::GText(Text::from_str(alloc, text.as_str())?)),
        MapKey::Class(class) => Ok(MapKey::Class(*class)),
        MapKey::Obj(id) => Ok(MapKey::Obj(*id)),
    }
}

/// Puts copies of entries behind others.
pub(crate) fn push_entries(
    alloc: Global,
    entries: &Entries,
    items: &mut Vec<(MapKey, Slot)>,
) -> Result<(), OutOfMemory>
    ensures { OnOk result (items.new.items ≡ items.old.items ++ entries.now) }
{
    for place in 0..entries.len() {
        let (key, slot) = entries.at(place);
        let key = copy_key(alloc, key)?;
        items.push((key, slot))?;
    }
    Ok(())
}
