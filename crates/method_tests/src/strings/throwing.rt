use crate::strings::cases::{Thrown, wrong_throw};
use crate::strings::world::{
    BEFORE, EMPTY, EURO, FROM_BEFORE, HELLO, L, LONGEST, MINUS, NO_NUMBER, PAST, PAST_INT,
    PAST_LONG, PLACES, SPACED, UP, WIDE, WORD,
};
use gv_base::{ExceptionKind, Value};
use std::test::Fail;

/// A text that writes no number, or one out of range.
const NO_NUMBERS: [Thrown; 8] = [
    (
        PAST_INT,
        "toInteger",
        &[],
        ExceptionKind::NumberFormatException,
        "For input string: \"2147483648\"",
    ),
    (
        EMPTY,
        "toInteger",
        &[],
        ExceptionKind::NumberFormatException,
        "For input string: \"\"",
    ),
    (
        WORD,
        "toInteger",
        &[],
        ExceptionKind::NumberFormatException,
        "For input string: \"x1\"",
    ),
    (
        MINUS,
        "toInteger",
        &[],
        ExceptionKind::NumberFormatException,
        "For input string: \"-\"",
    ),
    (
        EURO,
        "toInteger",
        &[],
        ExceptionKind::NumberFormatException,
        "For input string: \"€\"",
    ),
    (
        PAST_LONG,
        "toLong",
        &[],
        ExceptionKind::NumberFormatException,
        "For input string: \"9223372036854775808\"",
    ),
    (
        EMPTY,
        "toLong",
        &[],
        ExceptionKind::NumberFormatException,
        "For input string: \"\"",
    ),
    (
        SPACED,
        "toLong",
        &[],
        ExceptionKind::NumberFormatException,
        "For input string: \"a b\"",
    ),
];

/// A place that isn't in the text.
const NO_CHARACTERS: [Thrown; 13] = [
    (
        HELLO,
        "getAt",
        &[Value::Int(5)],
        ExceptionKind::StringIndexOutOfBoundsException,
        "String index out of range: 5",
    ),
    (
        HELLO,
        "getAt",
        &[Value::Int(-6)],
        ExceptionKind::StringIndexOutOfBoundsException,
        "String index out of range: -6",
    ),
    (
        EMPTY,
        "getAt",
        &[Value::Int(0)],
        ExceptionKind::StringIndexOutOfBoundsException,
        "String index out of range: 0",
    ),
    (
        HELLO,
        "getAt",
        &[Value::Int(2147483647)],
        ExceptionKind::StringIndexOutOfBoundsException,
        "String index out of range: 2147483647",
    ),
    (
        HELLO,
        "getAt",
        &[Value::Int(-2147483648)],
        ExceptionKind::StringIndexOutOfBoundsException,
        "String index out of range: -2147483648",
    ),
    (
        WIDE,
        "getAt",
        &[Value::Int(4)],
        ExceptionKind::StringIndexOutOfBoundsException,
        "String index out of range: 4",
    ),
    (
        HELLO,
        "getAt",
        &[BEFORE],
        ExceptionKind::StringIndexOutOfBoundsException,
        "String index out of range: -6",
    ),
    (
        HELLO,
        "getAt",
        &[PAST],
        ExceptionKind::StringIndexOutOfBoundsException,
        "String index out of range: 5",
    ),
    (
        EMPTY,
        "getAt",
        &[PLACES],
        ExceptionKind::StringIndexOutOfBoundsException,
        "String index out of range: 2",
    ),
    (
        HELLO,
        "getAt",
        &[LONGEST],
        ExceptionKind::StringIndexOutOfBoundsException,
        "String index out of range: 5",
    ),
    (
        HELLO,
        "getAt",
        &[FROM_BEFORE],
        ExceptionKind::StringIndexOutOfBoundsException,
        "String index out of range: -1",
    ),
    (
        EMPTY,
        "getAt",
        &[UP],
        ExceptionKind::StringIndexOutOfBoundsException,
        "String index out of range: 1",
    ),
    (
        HELLO,
        "getAt",
        &[NO_NUMBER],
        ExceptionKind::IllegalArgumentException,
        "Bad arguments: getAt",
    ),
];

/// A place that a part can't begin or end at.
const NO_PARTS: [Thrown; 10] = [
    (
        HELLO,
        "substring",
        &[Value::Int(6)],
        ExceptionKind::StringIndexOutOfBoundsException,
        "String index out of range: 6",
    ),
    (
        HELLO,
        "substring",
        &[Value::Int(-1)],
        ExceptionKind::StringIndexOutOfBoundsException,
        "String index out of range: -1",
    ),
    (
        EMPTY,
        "substring",
        &[Value::Int(1)],
        ExceptionKind::StringIndexOutOfBoundsException,
        "String index out of range: 1",
    ),
    (
        WIDE,
        "substring",
        &[Value::Int(5)],
        ExceptionKind::StringIndexOutOfBoundsException,
        "String index out of range: 5",
    ),
    (
        HELLO,
        "substring",
        &[Value::Int(2), Value::Int(1)],
        ExceptionKind::StringIndexOutOfBoundsException,
        "String index out of range: 1",
    ),
    (
        HELLO,
        "substring",
        &[Value::Int(0), Value::Int(6)],
        ExceptionKind::StringIndexOutOfBoundsException,
        "String index out of range: 6",
    ),
    (
        HELLO,
        "substring",
        &[Value::Int(-1), Value::Int(9)],
        ExceptionKind::StringIndexOutOfBoundsException,
        "String index out of range: -1",
    ),
    (
        HELLO,
        "substring",
        &[Value::Int(6), Value::Int(7)],
        ExceptionKind::StringIndexOutOfBoundsException,
        "String index out of range: 6",
    ),
    (
        HELLO,
        "substring",
        &[Value::Int(3), Value::Int(-1)],
        ExceptionKind::StringIndexOutOfBoundsException,
        "String index out of range: -1",
    ),
    (
        WIDE,
        "substring",
        &[Value::Int(0), Value::Int(5)],
        ExceptionKind::StringIndexOutOfBoundsException,
        "String index out of range: 5",
    ),
];

/// A count below 0, and nothing to pad with.
const NO_TEXTS: [Thrown; 5] = [
    (
        HELLO,
        "multiply",
        &[Value::Int(-1)],
        ExceptionKind::IllegalArgumentException,
        "Negative count: -1",
    ),
    (
        EMPTY,
        "multiply",
        &[Value::Long(-9223372036854775808)],
        ExceptionKind::IllegalArgumentException,
        "Negative count: -9223372036854775808",
    ),
    (
        HELLO,
        "padLeft",
        &[Value::Int(3), EMPTY],
        ExceptionKind::IllegalArgumentException,
        "Empty padding",
    ),
    (
        HELLO,
        "padLeft",
        &[Value::Int(-1), EMPTY],
        ExceptionKind::IllegalArgumentException,
        "Empty padding",
    ),
    (
        HELLO,
        "padRight",
        &[Value::Int(9), EMPTY],
        ExceptionKind::IllegalArgumentException,
        "Empty padding",
    ),
];

/// Null for each kind that is written.
const NULLS: [Thrown; 19] = [
    (
        HELLO,
        "multiply",
        &[Value::Null],
        ExceptionKind::IllegalArgumentException,
        "Null argument: multiply",
    ),
    (
        HELLO,
        "getAt",
        &[Value::Null],
        ExceptionKind::IllegalArgumentException,
        "Null argument: getAt",
    ),
    (
        HELLO,
        "contains",
        &[Value::Null],
        ExceptionKind::IllegalArgumentException,
        "Null argument: contains",
    ),
    (
        HELLO,
        "startsWith",
        &[Value::Null],
        ExceptionKind::IllegalArgumentException,
        "Null argument: startsWith",
    ),
    (
        HELLO,
        "endsWith",
        &[Value::Null],
        ExceptionKind::IllegalArgumentException,
        "Null argument: endsWith",
    ),
    (
        HELLO,
        "indexOf",
        &[Value::Null],
        ExceptionKind::IllegalArgumentException,
        "Null argument: indexOf",
    ),
    (
        HELLO,
        "lastIndexOf",
        &[Value::Null],
        ExceptionKind::IllegalArgumentException,
        "Null argument: lastIndexOf",
    ),
    (
        HELLO,
        "substring",
        &[Value::Null],
        ExceptionKind::IllegalArgumentException,
        "Null argument: substring",
    ),
    (
        HELLO,
        "substring",
        &[Value::Int(9), Value::Null],
        ExceptionKind::IllegalArgumentException,
        "Null argument: substring",
    ),
    (
        HELLO,
        "substring",
        &[Value::Null, Value::Int(1)],
        ExceptionKind::IllegalArgumentException,
        "Null argument: substring",
    ),
    (
        HELLO,
        "replace",
        &[Value::Null, L],
        ExceptionKind::IllegalArgumentException,
        "Null argument: replace",
    ),
    (
        HELLO,
        "replace",
        &[L, Value::Null],
        ExceptionKind::IllegalArgumentException,
        "Null argument: replace",
    ),
    (
        HELLO,
        "count",
        &[Value::Null],
        ExceptionKind::IllegalArgumentException,
        "Null argument: count",
    ),
    (
        HELLO,
        "tokenize",
        &[Value::Null],
        ExceptionKind::IllegalArgumentException,
        "Null argument: tokenize",
    ),
    (
        HELLO,
        "padLeft",
        &[Value::Null],
        ExceptionKind::IllegalArgumentException,
        "Null argument: padLeft",
    ),
    (
        HELLO,
        "padRight",
        &[Value::Null],
        ExceptionKind::IllegalArgumentException,
        "Null argument: padRight",
    ),
    (
        HELLO,
        "padLeft",
        &[Value::Null, EMPTY],
        ExceptionKind::IllegalArgumentException,
        "Null argument: padLeft",
    ),
    (
        HELLO,
        "padRight",
        &[Value::Int(3), Value::Null],
        ExceptionKind::IllegalArgumentException,
        "Null argument: padRight",
    ),
    (
        HELLO,
        "compareTo",
        &[Value::Null],
        ExceptionKind::IllegalArgumentException,
        "Null argument: compareTo",
    ),
];

#[test]
fn no_numbers(rt: HostRuntime) -> Result<(), Fail> {
    assert_eq!(rt; wrong_throw(rt.alloc(), &NO_NUMBERS)?, None);
    Ok(())
}

#[test]
fn no_characters(rt: HostRuntime) -> Result<(), Fail> {
    assert_eq!(rt; wrong_throw(rt.alloc(), &NO_CHARACTERS)?, None);
    Ok(())
}

#[test]
fn no_parts(rt: HostRuntime) -> Result<(), Fail> {
    assert_eq!(rt; wrong_throw(rt.alloc(), &NO_PARTS)?, None);
    Ok(())
}

#[test]
fn no_texts(rt: HostRuntime) -> Result<(), Fail> {
    assert_eq!(rt; wrong_throw(rt.alloc(), &NO_TEXTS)?, None);
    Ok(())
}

#[test]
fn nulls(rt: HostRuntime) -> Result<(), Fail> {
    assert_eq!(rt; wrong_throw(rt.alloc(), &NULLS)?, None);
    Ok(())
}
