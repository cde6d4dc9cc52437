//! What an answer adds to what is gathered.

ghost use Rattle.std.specs.Prelude.{◌≡◌, IfOk};
ghost use Rattle.gv_groups.specs.Gathering as spec;

use crate::group::Gathering;
use gv_base::{OutOfMemory, Value};
use gv_code::Stack;
use gv_folds::Handed;
use gv_gathered::Gathered;
use gv_heap::{MapKey, Slot};

/// With a value at a key.
pub(crate) fn with_value(
    gathering: Gathering,
    key: MapKey,
    shown: Value,
    value: Value,
) -> Result<Gathering, OutOfMemory>
    ensures { IfOk result (λ more. more ≡ spec.with_value gathering key shown value) }
{
    match gathering {
        Gathering::Groups(mut groups) => {
            groups.add(key, shown, value)?;
            Ok(Gathering::Groups(groups))
        }
        Gathering::Entries(mut entries) => {
            entries.put(key, shown, value)?;
            Ok(Gathering::Entries(entries))
        }
        found => Ok(found),
    }
}

/// With the first entry that has no answer yet where its answer is true, and without it where it is false.
pub(crate) fn judged(gathering: Gathering, holds: bool) -> Result<Gathering, OutOfMemory>
    ensures { IfOk result (λ more. more ≡ spec.judged gathering holds) }
{
    match gathering {
        Gathering::Found { kept, entries } => found(kept, entries, holds),
        other => Ok(other),
    }
}

fn found(
    kept: Gathered,
    entries: Stack<(MapKey, Slot)>,
    holds: bool,
) -> Result<Gathering, OutOfMemory>
    ensures { IfOk result (λ more. more ≡ spec.found kept entries holds) }
{
    let mut entries = entries;
    match entries.pop() {
        None => Ok(Gathering::Found { kept, entries }),
        Some(entry) => Ok(Gathering::Found {
            kept: kept_where(kept, entry, holds)?,
            entries,
        }),
    }
}

fn kept_where(kept: Gathered, entry: (MapKey, Slot), holds: bool) -> Result<Gathered, OutOfMemory>
    ensures { IfOk result (λ more. more ≡ spec.kept_where kept entry holds) }
{
    let mut kept = kept;
    if holds {
        let (key, slot) = entry;
        kept.put(key, slot.shown, slot.value)?;
        Ok(kept)
    } else {
        Ok(kept)
    }
}

pub(crate) fn element_of(handed: Handed) -> Value
    ensures { result ≡ spec.element_of handed }
{
    match handed {
        Handed::Element(value) => value,
        _ => Value::Null,
    }
}
