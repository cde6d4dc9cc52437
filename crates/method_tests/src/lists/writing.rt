use crate::lists::cases::{Written, wrong_write};
use crate::lists::world::{EMPTY, LIST, LONGS, NONE, OPEN, PLACES, UP};
use gv_base::Value;
use std::test::Fail;

/// An element at a place; past the end behind nulls.
const PUT: [Written; 10] = [
    (
        LIST,
        "putAt",
        &[Value::Int(0), Value::Int(7)],
        Value::Null,
        &[Value::Int(7), Value::Int(20), Value::Int(30)],
        0,
    ),
    (
        LIST,
        "putAt",
        &[Value::Int(2), Value::Int(7)],
        Value::Null,
        &[Value::Int(10), Value::Int(20), Value::Int(7)],
        0,
    ),
    (
        LIST,
        "putAt",
        &[Value::Int(-1), Value::Int(7)],
        Value::Null,
        &[Value::Int(10), Value::Int(20), Value::Int(7)],
        0,
    ),
    (
        LIST,
        "putAt",
        &[Value::Int(-3), Value::Int(7)],
        Value::Null,
        &[Value::Int(7), Value::Int(20), Value::Int(30)],
        0,
    ),
    (
        LIST,
        "putAt",
        &[Value::Int(1), Value::Null],
        Value::Null,
        &[Value::Int(10), Value::Null, Value::Int(30)],
        0,
    ),
    (
        LIST,
        "putAt",
        &[Value::Int(1), LIST],
        Value::Null,
        &[Value::Int(10), LIST, Value::Int(30)],
        0,
    ),
    (
        LIST,
        "putAt",
        &[Value::Int(3), Value::Int(7)],
        Value::Null,
        &[
            Value::Int(10),
            Value::Int(20),
            Value::Int(30),
            Value::Int(7),
        ],
        1,
    ),
    (
        LIST,
        "putAt",
        &[Value::Int(5), Value::Int(7)],
        Value::Null,
        &[
            Value::Int(10),
            Value::Int(20),
            Value::Int(30),
            Value::Null,
            Value::Null,
            Value::Int(7),
        ],
        3,
    ),
    (
        EMPTY,
        "putAt",
        &[Value::Int(0), Value::Int(7)],
        Value::Null,
        &[Value::Int(7)],
        1,
    ),
    (
        EMPTY,
        "putAt",
        &[Value::Int(2), Value::Null],
        Value::Null,
        &[Value::Null, Value::Null, Value::Null],
        3,
    ),
];

/// One more element.
const ADD: [Written; 12] = [
    (
        LIST,
        "add",
        &[Value::Int(7)],
        Value::Bool(true),
        &[
            Value::Int(10),
            Value::Int(20),
            Value::Int(30),
            Value::Int(7),
        ],
        1,
    ),
    (
        LIST,
        "add",
        &[Value::Null],
        Value::Bool(true),
        &[Value::Int(10), Value::Int(20), Value::Int(30), Value::Null],
        1,
    ),
    (
        EMPTY,
        "add",
        &[Value::Int(7)],
        Value::Bool(true),
        &[Value::Int(7)],
        1,
    ),
    (
        LIST,
        "add",
        &[LIST],
        Value::Bool(true),
        &[Value::Int(10), Value::Int(20), Value::Int(30), LIST],
        1,
    ),
    (
        LIST,
        "push",
        &[Value::Int(7)],
        Value::Bool(true),
        &[
            Value::Int(10),
            Value::Int(20),
            Value::Int(30),
            Value::Int(7),
        ],
        1,
    ),
    (
        EMPTY,
        "push",
        &[Value::Null],
        Value::Bool(true),
        &[Value::Null],
        1,
    ),
    (
        LIST,
        "leftShift",
        &[Value::Int(7)],
        LIST,
        &[
            Value::Int(10),
            Value::Int(20),
            Value::Int(30),
            Value::Int(7),
        ],
        1,
    ),
    (EMPTY, "leftShift", &[UP], EMPTY, &[UP], 1),
    (
        LIST,
        "add",
        &[Value::Int(0), Value::Int(7)],
        Value::Null,
        &[
            Value::Int(7),
            Value::Int(10),
            Value::Int(20),
            Value::Int(30),
        ],
        1,
    ),
    (
        LIST,
        "add",
        &[Value::Int(1), Value::Null],
        Value::Null,
        &[Value::Int(10), Value::Null, Value::Int(20), Value::Int(30)],
        1,
    ),
    (
        LIST,
        "add",
        &[Value::Int(3), Value::Int(7)],
        Value::Null,
        &[
            Value::Int(10),
            Value::Int(20),
            Value::Int(30),
            Value::Int(7),
        ],
        1,
    ),
    (
        EMPTY,
        "add",
        &[Value::Int(0), Value::Int(7)],
        Value::Null,
        &[Value::Int(7)],
        1,
    ),
];

/// The elements of a List or a Range, as they are at the start.
const ALL: [Written; 8] = [
    (
        LIST,
        "addAll",
        &[LIST],
        Value::Bool(true),
        &[
            Value::Int(10),
            Value::Int(20),
            Value::Int(30),
            Value::Int(10),
            Value::Int(20),
            Value::Int(30),
        ],
        3,
    ),
    (
        LIST,
        "addAll",
        &[PLACES],
        Value::Bool(true),
        &[
            Value::Int(10),
            Value::Int(20),
            Value::Int(30),
            Value::Int(2),
            Value::Long(0),
            Value::Int(-1),
            Value::Int(9),
        ],
        4,
    ),
    (
        LIST,
        "addAll",
        &[EMPTY],
        Value::Bool(false),
        &[Value::Int(10), Value::Int(20), Value::Int(30)],
        0,
    ),
    (
        LIST,
        "addAll",
        &[UP],
        Value::Bool(true),
        &[
            Value::Int(10),
            Value::Int(20),
            Value::Int(30),
            Value::Int(1),
            Value::Int(2),
            Value::Int(3),
        ],
        3,
    ),
    (
        LIST,
        "addAll",
        &[NONE],
        Value::Bool(false),
        &[Value::Int(10), Value::Int(20), Value::Int(30)],
        0,
    ),
    (
        EMPTY,
        "addAll",
        &[OPEN],
        Value::Bool(true),
        &[Value::Int(0), Value::Int(1)],
        2,
    ),
    (EMPTY, "addAll", &[EMPTY], Value::Bool(false), &[], 0),
    (
        EMPTY,
        "addAll",
        &[LONGS],
        Value::Bool(true),
        &[Value::Long(5), Value::Long(6)],
        2,
    ),
];

/// Elements that go.
const OUT: [Written; 4] = [
    (
        LIST,
        "pop",
        &[],
        Value::Int(30),
        &[Value::Int(10), Value::Int(20)],
        0,
    ),
    (
        PLACES,
        "pop",
        &[],
        Value::Int(9),
        &[Value::Int(2), Value::Long(0), Value::Int(-1)],
        0,
    ),
    (LIST, "clear", &[], Value::Null, &[], 0),
    (EMPTY, "clear", &[], Value::Null, &[], 0),
];

#[test]
fn an_element_is_put_at_a_place(rt: HostRuntime) -> Result<(), Fail> {
    assert_eq!(rt; wrong_write(rt.alloc(), &PUT)?, None);
    Ok(())
}

#[test]
fn an_element_is_added(rt: HostRuntime) -> Result<(), Fail> {
    assert_eq!(rt; wrong_write(rt.alloc(), &ADD)?, None);
    Ok(())
}

#[test]
fn all_elements_are_added(rt: HostRuntime) -> Result<(), Fail> {
    assert_eq!(rt; wrong_write(rt.alloc(), &ALL)?, None);
    Ok(())
}

#[test]
fn elements_go(rt: HostRuntime) -> Result<(), Fail> {
    assert_eq!(rt; wrong_write(rt.alloc(), &OUT)?, None);
    Ok(())
}
