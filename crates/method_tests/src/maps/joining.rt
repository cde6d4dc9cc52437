use crate::maps::world::Step::{Gives, Holds, Left, Misses, Spends, Throws};
use crate::maps::world::{
    FIRST_NEW, GSTRING, LIST, MAP, MORE, OF_GSTRING, SECOND_NEW, Step, TEXT, TEXT_AGAIN,
    first_wrong,
};
use gv_base::ExceptionKind::IllegalArgumentException;
use gv_base::Value;
use std::test::Fail;

const PUT_ALL_TAKES_A_CELL_FOR_EACH_NEW_KEY: [Step; 12] = [
    Gives("put", MAP, &[Value::Int(1), Value::Int(10)], Value::Null),
    Gives("put", MAP, &[Value::Int(2), Value::Int(20)], Value::Null),
    Gives("put", MORE, &[Value::Int(3), Value::Int(31)], Value::Null),
    Gives("put", MORE, &[Value::Int(2), Value::Int(21)], Value::Null),
    Gives("put", MORE, &[Value::Int(4), Value::Int(41)], Value::Null),
    Left(2),
    Gives("putAll", MAP, &[MORE], Value::Null),
    Holds(
        MAP,
        &[
            (Value::Int(1), Value::Int(10)),
            (Value::Int(2), Value::Int(21)),
            (Value::Int(3), Value::Int(31)),
            (Value::Int(4), Value::Int(41)),
        ],
    ),
    Holds(
        MORE,
        &[
            (Value::Int(3), Value::Int(31)),
            (Value::Int(2), Value::Int(21)),
            (Value::Int(4), Value::Int(41)),
        ],
    ),
    Left(0),
    Gives("putAll", MAP, &[MORE], Value::Null),
    Holds(
        MAP,
        &[
            (Value::Int(1), Value::Int(10)),
            (Value::Int(2), Value::Int(21)),
            (Value::Int(3), Value::Int(31)),
            (Value::Int(4), Value::Int(41)),
        ],
    ),
];

#[test]
fn put_all_takes_a_cell_for_each_new_key(rt: HostRuntime) -> Result<(), Fail> {
    assert_eq!(rt;
        first_wrong(rt.alloc(), 7, &PUT_ALL_TAKES_A_CELL_FOR_EACH_NEW_KEY)?,
        None
    );
    Ok(())
}

const LEFT_SHIFT_ANSWERS_THE_RECEIVER: [Step; 11] = [
    Gives("put", MAP, &[Value::Int(1), Value::Int(10)], Value::Null),
    Gives("put", MAP, &[Value::Int(2), Value::Int(20)], Value::Null),
    Gives("put", MORE, &[Value::Int(3), Value::Int(31)], Value::Null),
    Gives("put", MORE, &[Value::Int(2), Value::Int(21)], Value::Null),
    Gives("put", MORE, &[Value::Int(4), Value::Int(41)], Value::Null),
    Gives("leftShift", MAP, &[MORE], MAP),
    Holds(
        MAP,
        &[
            (Value::Int(1), Value::Int(10)),
            (Value::Int(2), Value::Int(21)),
            (Value::Int(3), Value::Int(31)),
            (Value::Int(4), Value::Int(41)),
        ],
    ),
    Holds(
        MORE,
        &[
            (Value::Int(3), Value::Int(31)),
            (Value::Int(2), Value::Int(21)),
            (Value::Int(4), Value::Int(41)),
        ],
    ),
    Left(0),
    Gives("leftShift", MAP, &[MORE], MAP),
    Holds(
        MAP,
        &[
            (Value::Int(1), Value::Int(10)),
            (Value::Int(2), Value::Int(21)),
            (Value::Int(3), Value::Int(31)),
            (Value::Int(4), Value::Int(41)),
        ],
    ),
];

#[test]
fn left_shift_answers_the_receiver(rt: HostRuntime) -> Result<(), Fail> {
    assert_eq!(rt;
        first_wrong(rt.alloc(), 7, &LEFT_SHIFT_ANSWERS_THE_RECEIVER)?,
        None
    );
    Ok(())
}

const PLUS_MAKES_A_MAP: [Step; 14] = [
    Gives("put", MAP, &[Value::Int(1), Value::Int(10)], Value::Null),
    Gives("put", MAP, &[Value::Int(2), Value::Int(20)], Value::Null),
    Gives("put", MORE, &[Value::Int(3), Value::Int(31)], Value::Null),
    Gives("put", MORE, &[Value::Int(2), Value::Int(21)], Value::Null),
    Gives("put", MORE, &[Value::Int(4), Value::Int(41)], Value::Null),
    Left(10),
    Gives("plus", MAP, &[MORE], FIRST_NEW),
    Holds(
        FIRST_NEW,
        &[
            (Value::Int(1), Value::Int(10)),
            (Value::Int(2), Value::Int(21)),
            (Value::Int(3), Value::Int(31)),
            (Value::Int(4), Value::Int(41)),
        ],
    ),
    Holds(
        MAP,
        &[
            (Value::Int(1), Value::Int(10)),
            (Value::Int(2), Value::Int(20)),
        ],
    ),
    Holds(
        MORE,
        &[
            (Value::Int(3), Value::Int(31)),
            (Value::Int(2), Value::Int(21)),
            (Value::Int(4), Value::Int(41)),
        ],
    ),
    Left(5),
    Gives("plus", MORE, &[MAP], SECOND_NEW),
    Holds(
        SECOND_NEW,
        &[
            (Value::Int(3), Value::Int(31)),
            (Value::Int(2), Value::Int(20)),
            (Value::Int(4), Value::Int(41)),
            (Value::Int(1), Value::Int(10)),
        ],
    ),
    Left(0),
];

// A new Map takes a cell and one for each of four entries.
#[test]
fn plus_makes_a_map(rt: HostRuntime) -> Result<(), Fail> {
    assert_eq!(rt; first_wrong(rt.alloc(), 15, &PLUS_MAKES_A_MAP)?, None);
    Ok(())
}

const WHAT_IS_NOT_PAID_IS_NOT_PUT: [Step; 15] = [
    Gives("put", MAP, &[Value::Int(1), Value::Int(10)], Value::Null),
    Gives("put", MAP, &[Value::Int(2), Value::Int(20)], Value::Null),
    Gives("put", MORE, &[Value::Int(3), Value::Int(31)], Value::Null),
    Gives("put", MORE, &[Value::Int(2), Value::Int(21)], Value::Null),
    Gives("put", MORE, &[Value::Int(4), Value::Int(41)], Value::Null),
    Left(1),
    Spends("putAll", MAP, &[MORE]),
    Spends("leftShift", MAP, &[MORE]),
    Spends("plus", MAP, &[MORE]),
    Holds(
        MAP,
        &[
            (Value::Int(1), Value::Int(10)),
            (Value::Int(2), Value::Int(20)),
        ],
    ),
    Holds(
        MORE,
        &[
            (Value::Int(3), Value::Int(31)),
            (Value::Int(2), Value::Int(21)),
            (Value::Int(4), Value::Int(41)),
        ],
    ),
    Left(1),
    Gives("putAll", MORE, &[MAP], Value::Null),
    Holds(
        MORE,
        &[
            (Value::Int(3), Value::Int(31)),
            (Value::Int(2), Value::Int(20)),
            (Value::Int(4), Value::Int(41)),
            (Value::Int(1), Value::Int(10)),
        ],
    ),
    Left(0),
];

#[test]
fn what_is_not_paid_is_not_put(rt: HostRuntime) -> Result<(), Fail> {
    assert_eq!(rt;
        first_wrong(rt.alloc(), 6, &WHAT_IS_NOT_PAID_IS_NOT_PUT)?,
        None
    );
    Ok(())
}

const A_SUM_IS_PRICED_AS_A_WHOLE: [Step; 11] = [
    Gives("put", MAP, &[Value::Int(1), Value::Int(10)], Value::Null),
    Gives("put", MAP, &[Value::Int(2), Value::Int(20)], Value::Null),
    Gives("put", MORE, &[Value::Int(3), Value::Int(31)], Value::Null),
    Gives("put", MORE, &[Value::Int(2), Value::Int(21)], Value::Null),
    Gives("put", MORE, &[Value::Int(4), Value::Int(41)], Value::Null),
    Left(4),
    Spends("plus", MAP, &[MORE]),
    Left(4),
    Gives("plus", MORE, &[MORE], FIRST_NEW),
    Holds(
        FIRST_NEW,
        &[
            (Value::Int(3), Value::Int(31)),
            (Value::Int(2), Value::Int(21)),
            (Value::Int(4), Value::Int(41)),
        ],
    ),
    Left(0),
];

// One cell is wanting for the first sum.
#[test]
fn a_sum_is_priced_as_a_whole(rt: HostRuntime) -> Result<(), Fail> {
    assert_eq!(rt;
        first_wrong(rt.alloc(), 9, &A_SUM_IS_PRICED_AS_A_WHOLE)?,
        None
    );
    Ok(())
}

const A_MAP_JOINS_ITSELF: [Step; 11] = [
    Gives("put", MAP, &[Value::Int(1), Value::Int(10)], Value::Null),
    Gives("put", MAP, &[Value::Int(2), Value::Int(20)], Value::Null),
    Gives("putAll", MAP, &[MAP], Value::Null),
    Holds(
        MAP,
        &[
            (Value::Int(1), Value::Int(10)),
            (Value::Int(2), Value::Int(20)),
        ],
    ),
    Gives("leftShift", MAP, &[MAP], MAP),
    Holds(
        MAP,
        &[
            (Value::Int(1), Value::Int(10)),
            (Value::Int(2), Value::Int(20)),
        ],
    ),
    Left(3),
    Gives("plus", MAP, &[MAP], FIRST_NEW),
    Holds(
        FIRST_NEW,
        &[
            (Value::Int(1), Value::Int(10)),
            (Value::Int(2), Value::Int(20)),
        ],
    ),
    Holds(
        MAP,
        &[
            (Value::Int(1), Value::Int(10)),
            (Value::Int(2), Value::Int(20)),
        ],
    ),
    Left(0),
];

#[test]
fn a_map_joins_itself(rt: HostRuntime) -> Result<(), Fail> {
    assert_eq!(rt; first_wrong(rt.alloc(), 5, &A_MAP_JOINS_ITSELF)?, None);
    Ok(())
}

const EMPTY_MAPS_JOIN: [Step; 13] = [
    Gives("put", MAP, &[Value::Int(1), Value::Int(10)], Value::Null),
    Gives("put", MAP, &[Value::Int(2), Value::Int(20)], Value::Null),
    Gives("putAll", MAP, &[MORE], Value::Null),
    Holds(
        MAP,
        &[
            (Value::Int(1), Value::Int(10)),
            (Value::Int(2), Value::Int(20)),
        ],
    ),
    Gives("plus", MORE, &[MORE], FIRST_NEW),
    Holds(FIRST_NEW, &[]),
    Left(5),
    Gives("plus", MORE, &[MAP], SECOND_NEW),
    Holds(
        SECOND_NEW,
        &[
            (Value::Int(1), Value::Int(10)),
            (Value::Int(2), Value::Int(20)),
        ],
    ),
    Left(2),
    Gives("leftShift", MORE, &[MAP], MORE),
    Holds(
        MORE,
        &[
            (Value::Int(1), Value::Int(10)),
            (Value::Int(2), Value::Int(20)),
        ],
    ),
    Left(0),
];

#[test]
fn empty_maps_join(rt: HostRuntime) -> Result<(), Fail> {
    assert_eq!(rt; first_wrong(rt.alloc(), 8, &EMPTY_MAPS_JOIN)?, None);
    Ok(())
}

const THE_RECEIVER_KEEPS_ITS_KEYS: [Step; 8] = [
    Gives("put", MAP, &[TEXT, Value::Int(1)], Value::Null),
    Gives("put", MORE, &[TEXT_AGAIN, Value::Int(2)], Value::Null),
    Gives("plus", MAP, &[MORE], FIRST_NEW),
    Holds(FIRST_NEW, &[(TEXT, Value::Int(2))]),
    Left(0),
    Gives("putAll", MAP, &[MORE], Value::Null),
    Holds(MAP, &[(TEXT, Value::Int(2))]),
    Holds(MORE, &[(TEXT_AGAIN, Value::Int(2))]),
];

// A text is one key by its bytes, shown as it stands in the receiver.
#[test]
fn the_receiver_keeps_its_keys(rt: HostRuntime) -> Result<(), Fail> {
    assert_eq!(rt;
        first_wrong(rt.alloc(), 4, &THE_RECEIVER_KEEPS_ITS_KEYS)?,
        None
    );
    Ok(())
}

const THE_TEXT_OF_A_GSTRING_GOES_ALONG: [Step; 7] = [
    Gives("put", MAP, &[TEXT, Value::Int(1)], Value::Null),
    Gives("leftShift", MAP, &[OF_GSTRING], MAP),
    Holds(MAP, &[(TEXT, Value::Int(1)), (GSTRING, Value::Int(2))]),
    Left(0),
    Gives("get", MAP, &[TEXT_AGAIN], Value::Int(1)),
    Gives("putAll", OF_GSTRING, &[OF_GSTRING], Value::Null),
    Holds(OF_GSTRING, &[(GSTRING, Value::Int(2))]),
];

// It stays a key apart from the String of that text.
#[test]
fn the_text_of_a_gstring_goes_along(rt: HostRuntime) -> Result<(), Fail> {
    assert_eq!(rt;
        first_wrong(rt.alloc(), 2, &THE_TEXT_OF_A_GSTRING_GOES_ALONG)?,
        None
    );
    Ok(())
}

const AN_INTEGER_AND_A_LONG_STAY_APART: [Step; 5] = [
    Gives("put", MAP, &[Value::Int(1), Value::Int(1)], Value::Null),
    Gives("put", MORE, &[Value::Long(1), Value::Int(2)], Value::Null),
    Gives("plus", MAP, &[MORE], FIRST_NEW),
    Holds(
        FIRST_NEW,
        &[
            (Value::Int(1), Value::Int(1)),
            (Value::Long(1), Value::Int(2)),
        ],
    ),
    Left(0),
];

#[test]
fn an_integer_and_a_long_stay_apart(rt: HostRuntime) -> Result<(), Fail> {
    assert_eq!(rt;
        first_wrong(rt.alloc(), 5, &AN_INTEGER_AND_A_LONG_STAY_APART)?,
        None
    );
    Ok(())
}

const NULL_IS_NO_MAP: [Step; 10] = [
    Gives("put", MAP, &[Value::Int(1), Value::Int(10)], Value::Null),
    Gives("put", MAP, &[Value::Int(2), Value::Int(20)], Value::Null),
    Throws(
        "putAll",
        MAP,
        &[Value::Null],
        IllegalArgumentException,
        "Null argument: putAll",
    ),
    Throws(
        "plus",
        MAP,
        &[Value::Null],
        IllegalArgumentException,
        "Null argument: plus",
    ),
    Throws(
        "leftShift",
        MAP,
        &[Value::Null],
        IllegalArgumentException,
        "Null argument: leftShift",
    ),
    Holds(
        MAP,
        &[
            (Value::Int(1), Value::Int(10)),
            (Value::Int(2), Value::Int(20)),
        ],
    ),
    Misses("putAll", MAP, &[Value::Int(1)]),
    Misses("plus", MAP, &[LIST]),
    Misses("leftShift", MAP, &[TEXT]),
    Misses("containsValue", MAP, &[Value::Int(1)]),
];

#[test]
fn null_is_no_map(rt: HostRuntime) -> Result<(), Fail> {
    assert_eq!(rt; first_wrong(rt.alloc(), 2, &NULL_IS_NO_MAP)?, None);
    Ok(())
}
