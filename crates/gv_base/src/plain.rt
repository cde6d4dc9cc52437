ghost use Rattle.std.specs.Prelude.{◌≡◌};
ghost use Rattle.gv_base.specs.Plain.{truth_of, equal_of, hash_of, long_hash_of};

use crate::value::Value;

/// Whether the value is true; `None` for an object.
pub fn plain_truth(v: Value) -> Option<bool>
    ensures { result ≡ truth_of v }
{
    match v {
        Value::Null => Some(false),
        Value::Bool(truth) => Some(truth),
        Value::Int(n) => Some(n != 0),
        Value::Long(n) => Some(n != 0),
        Value::Class(_) => Some(true),
        Value::Obj(_) => None,
    }
}

/// Whether the values are equal; `None` for an object beside anything but null.
pub fn plain_equal(a: Value, b: Value) -> Option<bool>
    ensures { result ≡ equal_of a b }
{
    match (a, b) {
        (Value::Null, Value::Null) => Some(true),
        (Value::Null, _) | (_, Value::Null) => Some(false),
        (Value::Obj(_), _) | (_, Value::Obj(_)) => None,
        (Value::Bool(x), Value::Bool(y)) => Some(x == y),
        (Value::Int(x), Value::Int(y)) => Some(x == y),
        (Value::Int(x), Value::Long(y)) => Some(i64::from(x) == y),
        (Value::Long(x), Value::Int(y)) => Some(x == i64::from(y)),
        (Value::Long(x), Value::Long(y)) => Some(x == y),
        (Value::Class(x), Value::Class(y)) => Some(x == y),
        _ => Some(false),
    }
}

/// The value's hash, as Java's; `None` for an object and for a class, whose hash is its name's.
pub fn plain_hash(v: Value) -> Option<i32>
    ensures { result ≡ hash_of v }
{
    match v {
        Value::Null => Some(0),
        Value::Bool(truth) => Some(if truth { 1231 } else { 1237 }),
        Value::Int(n) => Some(n),
        Value::Long(n) => Some(long_hash(n)),
        Value::Class(_) | Value::Obj(_) => None,
    }
}

/// `n ^ (n >>> 32)`, cut to 32 bits.
fn long_hash(n: i64) -> i32
    ensures { result ≡ long_hash_of n }
{
    let bits = n.cast_unsigned();
    let low = (bits ^ (bits >> 32)) % (1 << 32);
    (low as u32).cast_signed()
}
