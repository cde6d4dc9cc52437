use crate::lists::cases::{Made, wrong_list};
use crate::lists::world::{EMPTY, LIST, NONE, OPEN, TEXT, UP};
use gv_base::Value;
use std::test::Fail;

/// The elements, and behind them those of a List or a Range, or any other value.
const PLUS: [Made; 11] = [
    (
        LIST,
        "plus",
        &[Value::Int(5)],
        &[
            Value::Int(10),
            Value::Int(20),
            Value::Int(30),
            Value::Int(5),
        ],
    ),
    (
        LIST,
        "plus",
        &[Value::Null],
        &[Value::Int(10), Value::Int(20), Value::Int(30), Value::Null],
    ),
    (
        LIST,
        "plus",
        &[EMPTY],
        &[Value::Int(10), Value::Int(20), Value::Int(30)],
    ),
    (
        LIST,
        "plus",
        &[LIST],
        &[
            Value::Int(10),
            Value::Int(20),
            Value::Int(30),
            Value::Int(10),
            Value::Int(20),
            Value::Int(30),
        ],
    ),
    (
        LIST,
        "plus",
        &[UP],
        &[
            Value::Int(10),
            Value::Int(20),
            Value::Int(30),
            Value::Int(1),
            Value::Int(2),
            Value::Int(3),
        ],
    ),
    (
        LIST,
        "plus",
        &[TEXT],
        &[Value::Int(10), Value::Int(20), Value::Int(30), TEXT],
    ),
    (
        LIST,
        "plus",
        &[Value::Class(3)],
        &[
            Value::Int(10),
            Value::Int(20),
            Value::Int(30),
            Value::Class(3),
        ],
    ),
    (EMPTY, "plus", &[Value::Bool(true)], &[Value::Bool(true)]),
    (EMPTY, "plus", &[NONE], &[]),
    (
        OPEN,
        "plus",
        &[OPEN],
        &[Value::Int(0), Value::Int(1), Value::Int(0), Value::Int(1)],
    ),
    (
        OPEN,
        "plus",
        &[Value::Long(7)],
        &[Value::Int(0), Value::Int(1), Value::Long(7)],
    ),
];

/// The elements so many times.
const TIMES: [Made; 8] = [
    (
        LIST,
        "multiply",
        &[Value::Int(2)],
        &[
            Value::Int(10),
            Value::Int(20),
            Value::Int(30),
            Value::Int(10),
            Value::Int(20),
            Value::Int(30),
        ],
    ),
    (
        LIST,
        "multiply",
        &[Value::Int(1)],
        &[Value::Int(10), Value::Int(20), Value::Int(30)],
    ),
    (LIST, "multiply", &[Value::Int(0)], &[]),
    (
        LIST,
        "multiply",
        &[Value::Long(2)],
        &[
            Value::Int(10),
            Value::Int(20),
            Value::Int(30),
            Value::Int(10),
            Value::Int(20),
            Value::Int(30),
        ],
    ),
    (EMPTY, "multiply", &[Value::Int(2000000000)], &[]),
    (EMPTY, "multiply", &[Value::Long(9223372036854775807)], &[]),
    (
        OPEN,
        "multiply",
        &[Value::Int(3)],
        &[
            Value::Int(0),
            Value::Int(1),
            Value::Int(0),
            Value::Int(1),
            Value::Int(0),
            Value::Int(1),
        ],
    ),
    (NONE, "multiply", &[Value::Int(2000000000)], &[]),
];

#[test]
fn more_elements_behind(rt: HostRuntime) -> Result<(), Fail> {
    assert_eq!(rt; wrong_list(rt.alloc(), &PLUS)?, None);
    Ok(())
}

#[test]
fn elements_several_times(rt: HostRuntime) -> Result<(), Fail> {
    assert_eq!(rt; wrong_list(rt.alloc(), &TIMES)?, None);
    Ok(())
}
