use crate::strings::cases::{Answered, wrong_answer};
use crate::strings::world::{
    AA, AAAA, EMPTY, EURO, FORTY_TWO, HE, HEL, HELLO, HELP, L, LEAST_INT, LO, MOST_LONG, PAST_INT,
    SPACED, WIDE,
};
use gv_base::Value;
use std::test::Fail;

/// How many characters there are, and whether there is none.
const SIZES: [Answered; 9] = [
    (HELLO, "length", &[], Value::Int(5)),
    (HELLO, "size", &[], Value::Int(5)),
    (EMPTY, "length", &[], Value::Int(0)),
    (EMPTY, "size", &[], Value::Int(0)),
    (WIDE, "length", &[], Value::Int(4)),
    (WIDE, "size", &[], Value::Int(4)),
    (HELLO, "isEmpty", &[], Value::Bool(false)),
    (EMPTY, "isEmpty", &[], Value::Bool(true)),
    (SPACED, "isEmpty", &[], Value::Bool(false)),
];

/// Whether a part stands in a text, at its start, at its end.
const STANDING: [Answered; 12] = [
    (HELLO, "contains", &[L], Value::Bool(true)),
    (HELLO, "contains", &[EURO], Value::Bool(false)),
    (HELLO, "contains", &[EMPTY], Value::Bool(true)),
    (EMPTY, "contains", &[EMPTY], Value::Bool(true)),
    (EMPTY, "contains", &[L], Value::Bool(false)),
    (WIDE, "contains", &[EURO], Value::Bool(true)),
    (HELLO, "startsWith", &[HE], Value::Bool(true)),
    (HELLO, "startsWith", &[LO], Value::Bool(false)),
    (HELLO, "startsWith", &[EMPTY], Value::Bool(true)),
    (HELLO, "endsWith", &[LO], Value::Bool(true)),
    (HELLO, "endsWith", &[HE], Value::Bool(false)),
    (HELLO, "endsWith", &[EMPTY], Value::Bool(true)),
];

/// Where a part stands, and at how many places.
const FOUND: [Answered; 16] = [
    (HELLO, "indexOf", &[L], Value::Int(2)),
    (HELLO, "lastIndexOf", &[L], Value::Int(3)),
    (HELLO, "indexOf", &[EURO], Value::Int(-1)),
    (HELLO, "lastIndexOf", &[EURO], Value::Int(-1)),
    (HELLO, "indexOf", &[EMPTY], Value::Int(0)),
    (HELLO, "lastIndexOf", &[EMPTY], Value::Int(5)),
    (WIDE, "indexOf", &[EURO], Value::Int(2)),
    (WIDE, "lastIndexOf", &[EURO], Value::Int(2)),
    (AAAA, "indexOf", &[AA], Value::Int(0)),
    (AAAA, "lastIndexOf", &[AA], Value::Int(2)),
    (HELLO, "count", &[L], Value::Int(2)),
    (AAAA, "count", &[AA], Value::Int(3)),
    (HELLO, "count", &[EMPTY], Value::Int(6)),
    (WIDE, "count", &[EMPTY], Value::Int(5)),
    (HELLO, "count", &[EURO], Value::Int(0)),
    (WIDE, "count", &[EURO], Value::Int(1)),
];

/// Which text comes first.
const ORDER: [Answered; 9] = [
    (HELLO, "compareTo", &[HELP], Value::Int(-1)),
    (HELP, "compareTo", &[HELLO], Value::Int(1)),
    (HELLO, "compareTo", &[HELLO], Value::Int(0)),
    (HELLO, "compareTo", &[HEL], Value::Int(1)),
    (HEL, "compareTo", &[HELLO], Value::Int(-1)),
    (EMPTY, "compareTo", &[EMPTY], Value::Int(0)),
    (EMPTY, "compareTo", &[L], Value::Int(-1)),
    (EURO, "compareTo", &[L], Value::Int(1)),
    (WIDE, "compareTo", &[L], Value::Int(-1)),
];

/// The number that a text writes.
const NUMBERS: [Answered; 6] = [
    (FORTY_TWO, "toInteger", &[], Value::Int(42)),
    (LEAST_INT, "toInteger", &[], Value::Int(-2147483648)),
    (FORTY_TWO, "toLong", &[], Value::Long(42)),
    (PAST_INT, "toLong", &[], Value::Long(2147483648)),
    (LEAST_INT, "toLong", &[], Value::Long(-2147483648)),
    (MOST_LONG, "toLong", &[], Value::Long(9223372036854775807)),
];

#[test]
fn sizes(rt: HostRuntime) -> Result<(), Fail> {
    assert_eq!(rt; wrong_answer(rt.alloc(), &SIZES)?, None);
    Ok(())
}

#[test]
fn standing(rt: HostRuntime) -> Result<(), Fail> {
    assert_eq!(rt; wrong_answer(rt.alloc(), &STANDING)?, None);
    Ok(())
}

#[test]
fn found(rt: HostRuntime) -> Result<(), Fail> {
    assert_eq!(rt; wrong_answer(rt.alloc(), &FOUND)?, None);
    Ok(())
}

#[test]
fn order(rt: HostRuntime) -> Result<(), Fail> {
    assert_eq!(rt; wrong_answer(rt.alloc(), &ORDER)?, None);
    Ok(())
}

#[test]
fn numbers(rt: HostRuntime) -> Result<(), Fail> {
    assert_eq!(rt; wrong_answer(rt.alloc(), &NUMBERS)?, None);
    Ok(())
}
