use crate::lists::cases::{Answered, Made, wrong_answer, wrong_list};
use crate::lists::world::{
    BEFORE, DOWN, EMPTY, FROM_END, LIST, LONGEST, LONGS, NONE, OPEN, PLACES, TO_END, UP,
};
use gv_base::Value;
use std::test::Fail;

/// How many elements there are, and whether there is none.
const SIZES: [Answered; 12] = [
    (LIST, "size", &[], Value::Int(3)),
    (EMPTY, "size", &[], Value::Int(0)),
    (UP, "size", &[], Value::Int(3)),
    (OPEN, "size", &[], Value::Int(2)),
    (NONE, "size", &[], Value::Int(0)),
    (FROM_END, "size", &[], Value::Int(2)),
    (LONGS, "size", &[], Value::Int(2)),
    (LONGEST, "size", &[], Value::Int(2147483647)),
    (LIST, "isEmpty", &[], Value::Bool(false)),
    (EMPTY, "isEmpty", &[], Value::Bool(true)),
    (UP, "isEmpty", &[], Value::Bool(false)),
    (NONE, "isEmpty", &[], Value::Bool(true)),
];

/// The first and the last element.
const ENDS: [Answered; 14] = [
    (LIST, "first", &[], Value::Int(10)),
    (LIST, "head", &[], Value::Int(10)),
    (LIST, "last", &[], Value::Int(30)),
    (UP, "first", &[], Value::Int(1)),
    (UP, "head", &[], Value::Int(1)),
    (UP, "last", &[], Value::Int(3)),
    (OPEN, "last", &[], Value::Int(1)),
    (FROM_END, "first", &[], Value::Int(-1)),
    (FROM_END, "last", &[], Value::Int(0)),
    (DOWN, "first", &[], Value::Int(2)),
    (DOWN, "last", &[], Value::Int(1)),
    (LONGS, "last", &[], Value::Long(6)),
    (LONGEST, "last", &[], Value::Int(2147483646)),
    (BEFORE, "last", &[], Value::Null),
];

/// The element at a place.
const AT: [Answered; 16] = [
    (LIST, "getAt", &[Value::Int(0)], Value::Int(10)),
    (LIST, "getAt", &[Value::Int(2)], Value::Int(30)),
    (LIST, "getAt", &[Value::Int(3)], Value::Null),
    (LIST, "getAt", &[Value::Int(2147483647)], Value::Null),
    (LIST, "getAt", &[Value::Int(-1)], Value::Int(30)),
    (LIST, "getAt", &[Value::Int(-3)], Value::Int(10)),
    (EMPTY, "getAt", &[Value::Int(0)], Value::Null),
    (UP, "getAt", &[Value::Int(1)], Value::Int(2)),
    (UP, "getAt", &[Value::Int(-1)], Value::Int(3)),
    (UP, "getAt", &[Value::Int(-3)], Value::Int(1)),
    (UP, "getAt", &[Value::Int(3)], Value::Null),
    (DOWN, "getAt", &[Value::Int(1)], Value::Int(1)),
    (DOWN, "getAt", &[Value::Int(-2)], Value::Int(2)),
    (LONGS, "getAt", &[Value::Int(0)], Value::Long(5)),
    (LONGEST, "getAt", &[Value::Int(5)], Value::Int(5)),
    (LONGEST, "getAt", &[Value::Int(-1)], Value::Int(2147483646)),
];

/// The elements at the items of a List, and where a Range walks.
const EACH: [Made; 17] = [
    (
        LIST,
        "getAt",
        &[PLACES],
        &[Value::Int(30), Value::Int(10), Value::Int(30), Value::Null],
    ),
    (LIST, "getAt", &[EMPTY], &[]),
    (
        LIST,
        "getAt",
        &[UP],
        &[Value::Int(20), Value::Int(30), Value::Null],
    ),
    (LIST, "getAt", &[OPEN], &[Value::Int(10), Value::Int(20)]),
    (
        LIST,
        "getAt",
        &[FROM_END],
        &[Value::Int(30), Value::Int(20), Value::Int(10)],
    ),
    (LIST, "getAt", &[TO_END], &[Value::Int(20), Value::Int(30)]),
    (LIST, "getAt", &[DOWN], &[Value::Int(30), Value::Int(20)]),
    (LIST, "getAt", &[NONE], &[]),
    (LIST, "getAt", &[LONGS], &[Value::Null, Value::Null]),
    (
        UP,
        "getAt",
        &[PLACES],
        &[Value::Int(3), Value::Int(1), Value::Int(3), Value::Null],
    ),
    (UP, "getAt", &[OPEN], &[Value::Int(1), Value::Int(2)]),
    (
        UP,
        "getAt",
        &[UP],
        &[Value::Int(2), Value::Int(3), Value::Null],
    ),
    (
        PLACES,
        "getAt",
        &[PLACES],
        &[Value::Int(-1), Value::Int(2), Value::Int(9), Value::Null],
    ),
    (EMPTY, "getAt", &[OPEN], &[Value::Null, Value::Null]),
    (EMPTY, "getAt", &[EMPTY], &[]),
    (EMPTY, "getAt", &[NONE], &[]),
    (
        LONGS,
        "getAt",
        &[PLACES],
        &[Value::Null, Value::Long(5), Value::Long(6), Value::Null],
    ),
];

/// A part of the elements. A count may be a Long, and is cut to 0 and the size.
const PARTS: [Made; 22] = [
    (LIST, "tail", &[], &[Value::Int(20), Value::Int(30)]),
    (UP, "tail", &[], &[Value::Int(2), Value::Int(3)]),
    (OPEN, "tail", &[], &[Value::Int(1)]),
    (
        LIST,
        "take",
        &[Value::Int(2)],
        &[Value::Int(10), Value::Int(20)],
    ),
    (LIST, "take", &[Value::Int(0)], &[]),
    (
        LIST,
        "take",
        &[Value::Int(3)],
        &[Value::Int(10), Value::Int(20), Value::Int(30)],
    ),
    (
        LIST,
        "take",
        &[Value::Int(9)],
        &[Value::Int(10), Value::Int(20), Value::Int(30)],
    ),
    (LIST, "take", &[Value::Int(-1)], &[]),
    (
        LIST,
        "take",
        &[Value::Long(9223372036854775807)],
        &[Value::Int(10), Value::Int(20), Value::Int(30)],
    ),
    (LIST, "take", &[Value::Long(-9223372036854775808)], &[]),
    (UP, "take", &[Value::Long(1)], &[Value::Int(1)]),
    (
        LONGEST,
        "take",
        &[Value::Int(2)],
        &[Value::Int(0), Value::Int(1)],
    ),
    (EMPTY, "take", &[Value::Int(1)], &[]),
    (
        LIST,
        "drop",
        &[Value::Int(1)],
        &[Value::Int(20), Value::Int(30)],
    ),
    (
        LIST,
        "drop",
        &[Value::Int(0)],
        &[Value::Int(10), Value::Int(20), Value::Int(30)],
    ),
    (LIST, "drop", &[Value::Int(3)], &[]),
    (LIST, "drop", &[Value::Int(9)], &[]),
    (
        LIST,
        "drop",
        &[Value::Int(-2)],
        &[Value::Int(10), Value::Int(20), Value::Int(30)],
    ),
    (LIST, "drop", &[Value::Long(9223372036854775807)], &[]),
    (LIST, "drop", &[Value::Long(2)], &[Value::Int(30)]),
    (UP, "drop", &[Value::Int(2)], &[Value::Int(3)]),
    (
        LONGEST,
        "drop",
        &[Value::Int(2147483645)],
        &[Value::Int(2147483645), Value::Int(2147483646)],
    ),
];

/// All elements, backwards and as they are.
const COPIES: [Made; 9] = [
    (
        LIST,
        "reverse",
        &[],
        &[Value::Int(30), Value::Int(20), Value::Int(10)],
    ),
    (EMPTY, "reverse", &[], &[]),
    (FROM_END, "reverse", &[], &[Value::Int(0), Value::Int(-1)]),
    (LONGS, "reverse", &[], &[Value::Long(6), Value::Long(5)]),
    (
        LIST,
        "toList",
        &[],
        &[Value::Int(10), Value::Int(20), Value::Int(30)],
    ),
    (EMPTY, "toList", &[], &[]),
    (OPEN, "toList", &[], &[Value::Int(0), Value::Int(1)]),
    (DOWN, "toList", &[], &[Value::Int(2), Value::Int(1)]),
    (
        PLACES,
        "toList",
        &[],
        &[Value::Int(2), Value::Long(0), Value::Int(-1), Value::Int(9)],
    ),
];

#[test]
fn sizes(rt: HostRuntime) -> Result<(), Fail> {
    assert_eq!(rt; wrong_answer(rt.alloc(), &SIZES)?, None);
    Ok(())
}

#[test]
fn ends(rt: HostRuntime) -> Result<(), Fail> {
    assert_eq!(rt; wrong_answer(rt.alloc(), &ENDS)?, None);
    Ok(())
}

#[test]
fn an_element_at_a_place(rt: HostRuntime) -> Result<(), Fail> {
    assert_eq!(rt; wrong_answer(rt.alloc(), &AT)?, None);
    Ok(())
}

#[test]
fn elements_at_several_places(rt: HostRuntime) -> Result<(), Fail> {
    assert_eq!(rt; wrong_list(rt.alloc(), &EACH)?, None);
    Ok(())
}

#[test]
fn parts(rt: HostRuntime) -> Result<(), Fail> {
    assert_eq!(rt; wrong_list(rt.alloc(), &PARTS)?, None);
    Ok(())
}

#[test]
fn copies(rt: HostRuntime) -> Result<(), Fail> {
    assert_eq!(rt; wrong_list(rt.alloc(), &COPIES)?, None);
    Ok(())
}
