use crate::maps::world::Step::{Gives, Holds, Left, Spends};
use crate::maps::world::{LARGE, MAP, Step, TEXT, TEXT_AGAIN, first_wrong};
use gv_base::Value;
use std::test::Fail;

const PUT_ANSWERS_WHAT_WAS_THERE: [Step; 11] = [
    Gives("put", MAP, &[Value::Int(1), Value::Int(5)], Value::Null),
    Left(2),
    Gives("put", MAP, &[Value::Int(1), Value::Int(6)], Value::Int(5)),
    Gives("put", MAP, &[Value::Int(1), Value::Null], Value::Int(6)),
    Gives("put", MAP, &[Value::Int(1), Value::Int(7)], Value::Null),
    Left(2),
    Gives("put", MAP, &[Value::Long(1), Value::Int(8)], Value::Null),
    Left(1),
    Gives("put", MAP, &[Value::Null, MAP], Value::Null),
    Left(0),
    Holds(
        MAP,
        &[
            (Value::Int(1), Value::Int(7)),
            (Value::Long(1), Value::Int(8)),
            (Value::Null, MAP),
        ],
    ),
];

#[test]
fn put_answers_what_was_there(rt: HostRuntime) -> Result<(), Fail> {
    assert_eq!(rt;
        first_wrong(rt.alloc(), 3, &PUT_ANSWERS_WHAT_WAS_THERE)?,
        None
    );
    Ok(())
}

const A_KEY_STAYS_AS_IT_CAME_FIRST: [Step; 11] = [
    Gives("put", MAP, &[TEXT, Value::Int(1)], Value::Null),
    Gives("put", MAP, &[LARGE, Value::Int(2)], Value::Null),
    Gives("put", MAP, &[TEXT_AGAIN, Value::Int(3)], Value::Int(1)),
    Holds(MAP, &[(TEXT, Value::Int(3)), (LARGE, Value::Int(2))]),
    Gives("putAt", MAP, &[TEXT_AGAIN, Value::Int(4)], Value::Int(4)),
    Gives("get", MAP, &[TEXT_AGAIN, Value::Int(5)], Value::Int(4)),
    Holds(MAP, &[(TEXT, Value::Int(4)), (LARGE, Value::Int(2))]),
    Gives("remove", MAP, &[TEXT_AGAIN], Value::Int(4)),
    Gives("put", MAP, &[TEXT_AGAIN, Value::Int(6)], Value::Null),
    Holds(MAP, &[(LARGE, Value::Int(2)), (TEXT_AGAIN, Value::Int(6))]),
    Left(0),
];

// Only once it is taken out, it goes last and is shown anew.
#[test]
fn a_key_stays_as_it_came_first(rt: HostRuntime) -> Result<(), Fail> {
    assert_eq!(rt;
        first_wrong(rt.alloc(), 3, &A_KEY_STAYS_AS_IT_CAME_FIRST)?,
        None
    );
    Ok(())
}

const PUT_AT_ANSWERS_THE_VALUE: [Step; 6] = [
    Gives("putAt", MAP, &[Value::Null, Value::Int(5)], Value::Int(5)),
    Left(1),
    Gives("putAt", MAP, &[Value::Null, Value::Int(6)], Value::Int(6)),
    Gives("putAt", MAP, &[Value::Int(0), Value::Null], Value::Null),
    Holds(
        MAP,
        &[(Value::Null, Value::Int(6)), (Value::Int(0), Value::Null)],
    ),
    Left(0),
];

#[test]
fn put_at_answers_the_value(rt: HostRuntime) -> Result<(), Fail> {
    assert_eq!(rt;
        first_wrong(rt.alloc(), 2, &PUT_AT_ANSWERS_THE_VALUE)?,
        None
    );
    Ok(())
}

const GET_PUTS_WHAT_IS_MISSING: [Step; 7] = [
    Gives("get", MAP, &[Value::Int(1), Value::Null], Value::Null),
    Left(1),
    Gives("get", MAP, &[Value::Int(1), Value::Int(2)], Value::Null),
    Gives("get", MAP, &[Value::Null, Value::Int(3)], Value::Int(3)),
    Gives("get", MAP, &[Value::Null, Value::Int(4)], Value::Int(3)),
    Holds(
        MAP,
        &[(Value::Int(1), Value::Null), (Value::Null, Value::Int(3))],
    ),
    Left(0),
];

// A key with null is there.
#[test]
fn get_puts_what_is_missing(rt: HostRuntime) -> Result<(), Fail> {
    assert_eq!(rt;
        first_wrong(rt.alloc(), 2, &GET_PUTS_WHAT_IS_MISSING)?,
        None
    );
    Ok(())
}

const A_NEW_KEY_TAKES_A_CELL: [Step; 10] = [
    Gives("put", MAP, &[Value::Int(1), Value::Int(5)], Value::Null),
    Spends("put", MAP, &[Value::Int(2), Value::Int(6)]),
    Spends("putAt", MAP, &[Value::Long(1), Value::Int(6)]),
    Spends("get", MAP, &[Value::Null, Value::Int(6)]),
    Holds(MAP, &[(Value::Int(1), Value::Int(5))]),
    Gives("put", MAP, &[Value::Int(1), Value::Int(6)], Value::Int(5)),
    Gives("putAt", MAP, &[Value::Int(1), Value::Int(7)], Value::Int(7)),
    Gives("get", MAP, &[Value::Int(1), Value::Int(8)], Value::Int(7)),
    Holds(MAP, &[(Value::Int(1), Value::Int(7))]),
    Left(0),
];

#[test]
fn a_new_key_takes_a_cell(rt: HostRuntime) -> Result<(), Fail> {
    assert_eq!(rt; first_wrong(rt.alloc(), 1, &A_NEW_KEY_TAKES_A_CELL)?, None);
    Ok(())
}

const REMOVE_ANSWERS_WHAT_WAS_THERE: [Step; 12] = [
    Gives("put", MAP, &[Value::Int(1), Value::Int(5)], Value::Null),
    Gives("put", MAP, &[Value::Int(2), Value::Null], Value::Null),
    Gives("put", MAP, &[Value::Int(3), Value::Int(7)], Value::Null),
    Gives("remove", MAP, &[Value::Long(1)], Value::Null),
    Gives("size", MAP, &[], Value::Int(3)),
    Gives("remove", MAP, &[Value::Int(1)], Value::Int(5)),
    Holds(
        MAP,
        &[(Value::Int(2), Value::Null), (Value::Int(3), Value::Int(7))],
    ),
    Gives("remove", MAP, &[Value::Int(1)], Value::Null),
    Gives("remove", MAP, &[Value::Int(2)], Value::Null),
    Holds(MAP, &[(Value::Int(3), Value::Int(7))]),
    Left(0),
    Spends("put", MAP, &[Value::Int(1), Value::Int(5)]),
];

// The others keep their order, and cells do not come back.
#[test]
fn remove_answers_what_was_there(rt: HostRuntime) -> Result<(), Fail> {
    assert_eq!(rt;
        first_wrong(rt.alloc(), 3, &REMOVE_ANSWERS_WHAT_WAS_THERE)?,
        None
    );
    Ok(())
}

const CLEAR_TAKES_ALL_OUT: [Step; 10] = [
    Gives("put", MAP, &[Value::Int(1), Value::Int(5)], Value::Null),
    Gives("clear", MAP, &[], Value::Null),
    Holds(MAP, &[]),
    Left(1),
    Gives("clear", MAP, &[], Value::Null),
    Gives("isEmpty", MAP, &[], Value::Bool(true)),
    Gives("get", MAP, &[Value::Int(1)], Value::Null),
    Gives("put", MAP, &[Value::Int(1), Value::Int(6)], Value::Null),
    Holds(MAP, &[(Value::Int(1), Value::Int(6))]),
    Left(0),
];

#[test]
fn clear_takes_all_out(rt: HostRuntime) -> Result<(), Fail> {
    assert_eq!(rt; first_wrong(rt.alloc(), 2, &CLEAR_TAKES_ALL_OUT)?, None);
    Ok(())
}
