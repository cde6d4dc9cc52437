//! What groups cost.

ghost use Rattle.std.specs.Prelude.{◌≡◌, ◌↔◌, ℕ, ◌+◌, ◌≤◌, IsTrue};
ghost use Rattle.gv_gathered.specs.Making as spec;

use crate::groups::Members;
use gv_heap::MapKey;
use indexmap::IndexMap;

/// What the lists of groups and the map of them cost, where it can be counted.
pub(crate) fn price_of(groups: &IndexMap<MapKey, Members>) -> Option<u64>
    ensures { spec.IsPrice result (spec.groups_price groups.now.entries) }
{
    let mut price = Some(1);
    for place in 0..groups.len() {
        price = with_group(price, groups[place].elements.len());
    }
    price
}

/// Whether a price is left.
pub(crate) fn is_left(price: Option<u64>, cells: u64) -> bool
    ensures { (n : ℕ) → spec.IsPrice price n → (IsTrue result ↔ (n ≤ cells)) }
{
    match price {
        Some(price) => price <= cells,
        None => false,
    }
}

/// A price with that of a group of so many elements.
fn with_group(price: Option<u64>, elements: usize) -> Option<u64>
    ensures { (n : ℕ) → spec.IsPrice price n → spec.IsPrice result (n + (2 + elements)) }
{
    price?.checked_add(2)?.checked_add(elements as u64)
}
