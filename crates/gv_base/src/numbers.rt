ghost use Rattle.std.specs.Prelude.{◌≡◌, ◌<◌, ◌≤◌, true, pos, if◌then◌else◌};
ghost use Rattle.std.specs.Int.{int_rem_euclid};
ghost use Rattle.std.specs.Int.RustNames.{unsigned_abs};
ghost use Rattle.gv_base.specs.Arith.{arith_of, int_result, long_result, is_shift};

use crate::outcome::{Arith, ArithOp};
use crate::value::Value;

/// The operation on two values: at 64 bits where a side is a Long, but a shift at the left side's.
pub fn arith(op: ArithOp, a: Value, b: Value) -> Arith
    ensures { result ≡ arith_of op a b }
{
    match (a, b) {
        (Value::Int(x), Value::Int(y)) => on_ints(op, x, y),
        (Value::Int(x), Value::Long(y)) => on_both(op, x, y),
        (Value::Long(x), Value::Int(y)) => on_longs(op, x, i64::from(y)),
        (Value::Long(x), Value::Long(y)) => on_longs(op, x, y),
        _ => Arith::NotNumbers,
    }
}

fn on_ints(op: ArithOp, a: i32, b: i32) -> Arith
    ensures { result ≡ int_result op a b }
{
    match op {
        ArithOp::Plus => Arith::Value(Value::Int(a.wrapping_add(b))),
        ArithOp::Minus => Arith::Value(Value::Int(a.wrapping_sub(b))),
        ArithOp::Multiply => Arith::Value(Value::Int(a.wrapping_mul(b))),
        ArithOp::Mod if b == 0 => Arith::ByZero,
        ArithOp::Mod => Arith::Value(Value::Int(a.wrapping_rem(b))),
        ArithOp::IntDiv if b == 0 => Arith::ByZero,
        ArithOp::IntDiv => Arith::Value(Value::Int(a.wrapping_div(b))),
        ArithOp::And => Arith::Value(Value::Int(a & b)),
        ArithOp::Or => Arith::Value(Value::Int(a | b)),
        ArithOp::Xor => Arith::Value(Value::Int(a ^ b)),
        ArithOp::LeftShift | ArithOp::RightShift | ArithOp::RightShiftUnsigned => {
            shift_int(op, a, i64::from(b))
        }
    }
}

fn on_longs(op: ArithOp, a: i64, b: i64) -> Arith
    ensures { result ≡ long_result op a b }
{
    match op {
        ArithOp::Plus => Arith::Value(Value::Long(a.wrapping_add(b))),
        ArithOp::Minus => Arith::Value(Value::Long(a.wrapping_sub(b))),
        ArithOp::Multiply => Arith::Value(Value::Long(a.wrapping_mul(b))),
        ArithOp::Mod if b == 0 => Arith::ByZero,
        ArithOp::Mod => Arith::Value(Value::Long(a.wrapping_rem(b))),
        ArithOp::IntDiv if b == 0 => Arith::ByZero,
        ArithOp::IntDiv => Arith::Value(Value::Long(a.wrapping_div(b))),
        ArithOp::And => Arith::Value(Value::Long(a & b)),
        ArithOp::Or => Arith::Value(Value::Long(a | b)),
        ArithOp::Xor => Arith::Value(Value::Long(a ^ b)),
        ArithOp::LeftShift | ArithOp::RightShift | ArithOp::RightShiftUnsigned => {
            shift_long(op, a, b)
        }
    }
}

/// An Integer on the left and a Long on the right.
fn on_both(op: ArithOp, a: i32, b: i64) -> Arith
    ensures { result ≡ (if is_shift op then int_result op a b else long_result op a b) }
{
    match op {
        ArithOp::LeftShift | ArithOp::RightShift | ArithOp::RightShiftUnsigned => {
            shift_int(op, a, b)
        }
        _ => on_longs(op, i64::from(a), b),
    }
}

/// A shift of an Integer, by the lowest five bits of the distance.
fn shift_int(op: ArithOp, a: i32, by: i64) -> Arith
    requires { is_shift op ≡ true }
    ensures { result ≡ int_result op a by }
{
    let distance = low_bits(by, 32);
    match op {
        ArithOp::LeftShift => Arith::Value(Value::Int(a.wrapping_shl(distance))),
        ArithOp::RightShift => Arith::Value(Value::Int(a.wrapping_shr(distance))),
        ArithOp::RightShiftUnsigned => Arith::Value(Value::Int(
            (a.cast_unsigned() >> distance).cast_signed(),
        )),
        _ => unreachable!(),
    }
}

/// A shift of a Long, by the lowest six bits of the distance.
fn shift_long(op: ArithOp, a: i64, by: i64) -> Arith
    requires { is_shift op ≡ true }
    ensures { result ≡ long_result op a by }
{
    let distance = low_bits(by, 64);
    match op {
        ArithOp::LeftShift => Arith::Value(Value::Long(a.wrapping_shl(distance))),
        ArithOp::RightShift => Arith::Value(Value::Long(a.wrapping_shr(distance))),
        ArithOp::RightShiftUnsigned => Arith::Value(Value::Long(
            (a.cast_unsigned() >> distance).cast_signed(),
        )),
        _ => unreachable!(),
    }
}

/// What is left of a whole number over a count of bits, from 0 up.
fn low_bits(by: i64, bits: u32) -> u32
    requires some { 0 < bits }
    requires few { bits ≤ 64 }
    ensures below { result < bits }
    ensures value { result ≡ unsigned_abs (int_rem_euclid by (pos bits)) }
{
    by.rem_euclid(i64::from(bits)) as u32
}
