use crate::lists::cases::{Thrown, wrong_throw};
use crate::lists::world::{
    BEFORE, EMPTY, FROM_BEFORE, FROM_END, LIST, NO_NUMBER, NONE, OPEN, PAST_START, PLACES, UP,
};
use gv_base::{ExceptionKind, Value};
use std::test::Fail;

/// Rows that read.
const READING: [Thrown; 22] = [
    (
        LIST,
        "getAt",
        &[Value::Int(-4)],
        ExceptionKind::IndexOutOfBoundsException,
        "Index: -4, Size: 3",
    ),
    (
        LIST,
        "getAt",
        &[Value::Int(-2147483648)],
        ExceptionKind::IndexOutOfBoundsException,
        "Index: -2147483648, Size: 3",
    ),
    (
        EMPTY,
        "getAt",
        &[Value::Int(-1)],
        ExceptionKind::IndexOutOfBoundsException,
        "Index: -1, Size: 0",
    ),
    (
        UP,
        "getAt",
        &[Value::Int(-4)],
        ExceptionKind::IndexOutOfBoundsException,
        "Index: -4, Size: 3",
    ),
    (
        LIST,
        "getAt",
        &[NO_NUMBER],
        ExceptionKind::IllegalArgumentException,
        "Bad arguments: getAt",
    ),
    (
        UP,
        "getAt",
        &[NO_NUMBER],
        ExceptionKind::IllegalArgumentException,
        "Bad arguments: getAt",
    ),
    (
        LIST,
        "getAt",
        &[BEFORE],
        ExceptionKind::IndexOutOfBoundsException,
        "Index: -4, Size: 3",
    ),
    (
        PLACES,
        "getAt",
        &[BEFORE],
        ExceptionKind::IllegalArgumentException,
        "Bad arguments: getAt",
    ),
    (
        EMPTY,
        "getAt",
        &[PLACES],
        ExceptionKind::IndexOutOfBoundsException,
        "Index: -1, Size: 0",
    ),
    (
        LIST,
        "getAt",
        &[PAST_START],
        ExceptionKind::IndexOutOfBoundsException,
        "Index: -1, Size: 3",
    ),
    (
        LIST,
        "getAt",
        &[FROM_BEFORE],
        ExceptionKind::IndexOutOfBoundsException,
        "Index: -2, Size: 3",
    ),
    (
        EMPTY,
        "getAt",
        &[FROM_END],
        ExceptionKind::IndexOutOfBoundsException,
        "Index: -1, Size: 0",
    ),
    (
        OPEN,
        "getAt",
        &[FROM_BEFORE],
        ExceptionKind::IndexOutOfBoundsException,
        "Index: -3, Size: 2",
    ),
    (
        EMPTY,
        "first",
        &[],
        ExceptionKind::NoSuchElementException,
        "first() of an empty list",
    ),
    (
        EMPTY,
        "head",
        &[],
        ExceptionKind::NoSuchElementException,
        "head() of an empty list",
    ),
    (
        EMPTY,
        "last",
        &[],
        ExceptionKind::NoSuchElementException,
        "last() of an empty list",
    ),
    (
        EMPTY,
        "tail",
        &[],
        ExceptionKind::NoSuchElementException,
        "tail() of an empty list",
    ),
    (
        NONE,
        "first",
        &[],
        ExceptionKind::NoSuchElementException,
        "first() of an empty list",
    ),
    (
        NONE,
        "tail",
        &[],
        ExceptionKind::NoSuchElementException,
        "tail() of an empty list",
    ),
    (
        LIST,
        "multiply",
        &[Value::Int(-1)],
        ExceptionKind::IllegalArgumentException,
        "Negative count: -1",
    ),
    (
        EMPTY,
        "multiply",
        &[Value::Long(-5000000000)],
        ExceptionKind::IllegalArgumentException,
        "Negative count: -5000000000",
    ),
    (
        UP,
        "multiply",
        &[Value::Int(-2147483648)],
        ExceptionKind::IllegalArgumentException,
        "Negative count: -2147483648",
    ),
];

/// Null for a kind, on a range too.
const NULLS: [Thrown; 10] = [
    (
        LIST,
        "getAt",
        &[Value::Null],
        ExceptionKind::IllegalArgumentException,
        "Null argument: getAt",
    ),
    (
        LIST,
        "putAt",
        &[Value::Null, Value::Int(7)],
        ExceptionKind::IllegalArgumentException,
        "Null argument: putAt",
    ),
    (
        LIST,
        "putAt",
        &[Value::Null, Value::Null],
        ExceptionKind::IllegalArgumentException,
        "Null argument: putAt",
    ),
    (
        LIST,
        "add",
        &[Value::Null, Value::Int(7)],
        ExceptionKind::IllegalArgumentException,
        "Null argument: add",
    ),
    (
        LIST,
        "addAll",
        &[Value::Null],
        ExceptionKind::IllegalArgumentException,
        "Null argument: addAll",
    ),
    (
        LIST,
        "multiply",
        &[Value::Null],
        ExceptionKind::IllegalArgumentException,
        "Null argument: multiply",
    ),
    (
        EMPTY,
        "take",
        &[Value::Null],
        ExceptionKind::IllegalArgumentException,
        "Null argument: take",
    ),
    (
        UP,
        "drop",
        &[Value::Null],
        ExceptionKind::IllegalArgumentException,
        "Null argument: drop",
    ),
    (
        UP,
        "putAt",
        &[Value::Null, Value::Int(7)],
        ExceptionKind::IllegalArgumentException,
        "Null argument: putAt",
    ),
    (
        UP,
        "addAll",
        &[Value::Null],
        ExceptionKind::IllegalArgumentException,
        "Null argument: addAll",
    ),
];

/// Rows that write.
const WRITING: [Thrown; 6] = [
    (
        LIST,
        "putAt",
        &[Value::Int(-4), Value::Int(7)],
        ExceptionKind::IndexOutOfBoundsException,
        "Index: -4, Size: 3",
    ),
    (
        EMPTY,
        "putAt",
        &[Value::Int(-1), Value::Int(7)],
        ExceptionKind::IndexOutOfBoundsException,
        "Index: -1, Size: 0",
    ),
    (
        LIST,
        "add",
        &[Value::Int(4), Value::Int(7)],
        ExceptionKind::IndexOutOfBoundsException,
        "Index: 4, Size: 3",
    ),
    (
        LIST,
        "add",
        &[Value::Int(-1), Value::Int(7)],
        ExceptionKind::IndexOutOfBoundsException,
        "Index: -1, Size: 3",
    ),
    (
        EMPTY,
        "add",
        &[Value::Int(1), Value::Int(7)],
        ExceptionKind::IndexOutOfBoundsException,
        "Index: 1, Size: 0",
    ),
    (
        EMPTY,
        "pop",
        &[],
        ExceptionKind::NoSuchElementException,
        "pop() of an empty list",
    ),
];

/// Rows that write on a range, whatever else is wrong.
const ON_RANGES: [Thrown; 12] = [
    (
        UP,
        "putAt",
        &[Value::Int(0), Value::Int(7)],
        ExceptionKind::UnsupportedOperationException,
        "putAt() on a range",
    ),
    (
        UP,
        "putAt",
        &[Value::Int(-9), Value::Int(7)],
        ExceptionKind::UnsupportedOperationException,
        "putAt() on a range",
    ),
    (
        UP,
        "add",
        &[Value::Int(7)],
        ExceptionKind::UnsupportedOperationException,
        "add() on a range",
    ),
    (
        UP,
        "push",
        &[Value::Int(7)],
        ExceptionKind::UnsupportedOperationException,
        "push() on a range",
    ),
    (
        UP,
        "addAll",
        &[LIST],
        ExceptionKind::UnsupportedOperationException,
        "addAll() on a range",
    ),
    (
        UP,
        "addAll",
        &[EMPTY],
        ExceptionKind::UnsupportedOperationException,
        "addAll() on a range",
    ),
    (
        UP,
        "add",
        &[Value::Int(0), Value::Int(7)],
        ExceptionKind::UnsupportedOperationException,
        "add() on a range",
    ),
    (
        UP,
        "add",
        &[Value::Int(9), Value::Int(7)],
        ExceptionKind::UnsupportedOperationException,
        "add() on a range",
    ),
    (
        UP,
        "leftShift",
        &[Value::Int(7)],
        ExceptionKind::UnsupportedOperationException,
        "leftShift() on a range",
    ),
    (
        UP,
        "pop",
        &[],
        ExceptionKind::UnsupportedOperationException,
        "pop() on a range",
    ),
    (
        NONE,
        "pop",
        &[],
        ExceptionKind::UnsupportedOperationException,
        "pop() on a range",
    ),
    (
        UP,
        "clear",
        &[],
        ExceptionKind::UnsupportedOperationException,
        "clear() on a range",
    ),
];

#[test]
fn reading_throws(rt: HostRuntime) -> Result<(), Fail> {
    assert_eq!(rt; wrong_throw(rt.alloc(), &READING)?, None);
    Ok(())
}

#[test]
fn null_throws(rt: HostRuntime) -> Result<(), Fail> {
    assert_eq!(rt; wrong_throw(rt.alloc(), &NULLS)?, None);
    Ok(())
}

#[test]
fn writing_throws(rt: HostRuntime) -> Result<(), Fail> {
    assert_eq!(rt; wrong_throw(rt.alloc(), &WRITING)?, None);
    Ok(())
}

#[test]
fn writing_on_a_range_throws(rt: HostRuntime) -> Result<(), Fail> {
    assert_eq!(rt; wrong_throw(rt.alloc(), &ON_RANGES)?, None);
    Ok(())
}
