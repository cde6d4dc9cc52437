ghost use Rattle.std.specs.Prelude.{◌≡◌, ◌+◌, ◌<◌, ◌^◌, [], length, IfOk, OnOk, option_copied, unwrap_or};
ghost use Rattle.gv_heap.specs.Entries.{has_key};
ghost use Rattle.gv_maps.specs.Joining.{joined, join_price};
ghost use Rattle.gv_maps.specs.Prices as spec;

use crate::copies::copy_key;
use gv_base::OutOfMemory;
use gv_heap::{Entries, MapKey, Slot};
use indexmap::IndexSet;
use std::alloc::Global;

/// What a new map with these items costs: a cell, and one for each entry that it then has.
#[tactic(auto, using(crate::proofs::Counts::length_joined))]
pub(crate) fn price_of_map(alloc: Global, items: &[(MapKey, Slot)]) -> Result<u64, OutOfMemory>
    ensures { IfOk result (λ n. n ≡ 1 + length (joined [] items.now)) }
{
    Ok(1 + count_new(alloc, None, items)?)
}

/// How many cells it takes to put these items into a map, or into an empty one.
#[tactic(auto, using(crate::proofs::Counts::counted_all))]
pub(crate) fn count_new(
    alloc: Global,
    entries: Option<&Entries>,
    items: &[(MapKey, Slot)],
) -> Result<u64, OutOfMemory>
    ensures count { IfOk result (λ n. n ≡ join_price (unwrap_or (option_copied entries.entry) []) items.now) }
    ensures small { IfOk result (λ n. n < 2 ^ 63) }
{
    let mut keys = IndexSet::new(alloc);
    note_all(alloc, entries, &mut keys, items)?;
    Ok(keys.len() as u64)
}

/// Notes the keys of items that the entries don't have.
fn note_all(
    alloc: Global,
    entries: Option<&Entries>,
    keys: &mut IndexSet<MapKey>,
    items: &[(MapKey, Slot)],
) -> Result<(), OutOfMemory>
    ensures { OnOk result (length keys.new.keys ≡ spec.count_noted (unwrap_or (option_copied entries.entry) []) keys.old.keys items.now) }
{
    for item in items {
        note(alloc, entries, keys, &item.0)?;
    }
    Ok(())
}

/// Notes a key that the entries don't have.
fn note(
    alloc: Global,
    entries: Option<&Entries>,
    keys: &mut IndexSet<MapKey>,
    key: &MapKey,
) -> Result<(), OutOfMemory>
    ensures { OnOk result (keys.new.keys ≡ spec.noted (unwrap_or (option_copied entries.entry) []) keys.old.keys key.now) }
{
    if !is_known(entries, key) {
        let key = copy_key(alloc, key)?;
        keys.insert(key)?;
    }
    Ok(())
}

/// Whether the entries have a key.
fn is_known(entries: Option<&Entries>, key: &MapKey) -> bool
    ensures { result ≡ has_key (unwrap_or (option_copied entries.entry) []) key.now }
{
    match entries {
        Some(entries) => entries.contains(key),
        None => false,
    }
}
