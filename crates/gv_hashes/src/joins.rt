//! How hashes are joined.

ghost use Rattle.std.specs.Prelude.{◌≡◌, OnOk};
ghost use Rattle.gv_hashes.specs.Rules as spec;

use gv_base::OutOfMemory;
use gv_code::Stack;

/// A hash with that of what comes next.
pub(crate) fn joined(hash: i32, next: i32) -> i32
    ensures { result ≡ spec.joined hash next }
{
    hash.wrapping_mul(31).wrapping_add(next)
}

/// The sum of a map's entries with one more.
fn summed(sum: i32, key: i32, value: i32) -> i32
    ensures { result ≡ spec.summed sum key value }
{
    sum.wrapping_add(key ^ value)
}

/// Joins the hash of an element to the one below it.
pub(crate) fn join_element(hashes: &mut Stack<i32>) -> Result<(), OutOfMemory>
    ensures { OnOk result (hashes.new ≡ spec.with_element hashes.old) }
{
    if hashes.len() < 2 {
        return Ok(());
    }
    let (Some(element), Some(hash)) = (hashes.pop(), hashes.pop()) else {
        unreachable!()
    };
    Ok(hashes.push(joined(hash, element))?)
}

/// Adds an entry, of a key and a value, to the sum below them.
pub(crate) fn join_entry(hashes: &mut Stack<i32>) -> Result<(), OutOfMemory>
    ensures { OnOk result (hashes.new ≡ spec.with_entry hashes.old) }
{
    if hashes.len() < 3 {
        return Ok(());
    }
    let (Some(value), Some(key), Some(sum)) = (hashes.pop(), hashes.pop(), hashes.pop()) else {
        unreachable!()
    };
    Ok(hashes.push(summed(sum, key, value))?)
}
