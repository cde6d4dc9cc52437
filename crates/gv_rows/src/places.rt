ghost use Rattle.std.specs.Prelude.{◌≡◌, ◌+◌, ◌<◌, ◌^◌, length, slice_get, unsigned_abs, Some};
ghost use Rattle.gv_heap.specs.Ranges.{IsRange};
ghost use Rattle.gv_rows.specs.Values as spec;

use gv_base::Value;
use std::marker::Model;

/// The number that a value is; None where it is none.
pub fn number_in(value: Value) -> Option<i64>
    ensures { result ≡ spec.number_in value }
{
    match value {
        Value::Int(n) => Some(i64::from(n)),
        Value::Long(n) => Some(n),
        _ => None,
    }
}

/// A size or a place as an Integer, which ends at 2147483647.
pub fn integer_of(count: usize) -> Value
    ensures { result ≡ spec.integer_of count }
{
    Value::Int(i32::try_from(count).unwrap_or(i32::MAX))
}

/// A place among so many elements, which counts from the end where it is negative. It stays negative
/// where it is before the start.
pub fn from_end(size: usize, n: i64) -> i64
    requires { size < 2 ^ 63 }
    ensures { result ≡ spec.from_end size n }
{
    if n < 0 { n + size as i64 } else { n }
}

/// The place that a number is; None where it is before the start.
pub fn natural(n: i64) -> Option<usize>
    ensures { result ≡ spec.natural n }
{
    usize::try_from(n).ok()
}
