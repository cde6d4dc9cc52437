ghost use Rattle.std.specs.Prelude.{◌≡◌, reverse, IfOk};

use gv_base::OutOfMemory;
use sqlite_items::Items;
use std::alloc::Global;

/// The same items, the last one first.
pub(crate) fn turned<T: Drop>(alloc: Global, items: Items<T>) -> Result<Items<T>, OutOfMemory>
    ensures { IfOk result (λ turned. turned ≡ reverse items) }
{
    let mut left = items;
    let mut turned = Items::new(alloc);
    while let Some(item) = left.pop() {
        turned.push(item)?;
    }
    Ok(turned)
}
