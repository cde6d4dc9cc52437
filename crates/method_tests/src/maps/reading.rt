use crate::maps::world::Step::{Gives, Holds, Left, Lists, Spends};
use crate::maps::world::{FIRST_NEW, MAP, MORE, SECOND_NEW, Step, TEXT, TEXT_AGAIN, first_wrong};
use gv_base::Value;
use std::test::Fail;

const SIZES: [Step; 9] = [
    Gives("size", MAP, &[], Value::Int(0)),
    Gives("isEmpty", MAP, &[], Value::Bool(true)),
    Gives("put", MAP, &[Value::Int(1), Value::Null], Value::Null),
    Gives("size", MAP, &[], Value::Int(1)),
    Gives("isEmpty", MAP, &[], Value::Bool(false)),
    Gives("put", MAP, &[Value::Long(1), Value::Null], Value::Null),
    Gives("put", MAP, &[Value::Int(1), Value::Int(5)], Value::Null),
    Gives("size", MAP, &[], Value::Int(2)),
    Gives("isEmpty", MORE, &[], Value::Bool(true)),
];

#[test]
fn sizes(rt: HostRuntime) -> Result<(), Fail> {
    assert_eq!(rt; first_wrong(rt.alloc(), 2, &SIZES)?, None);
    Ok(())
}

const READING_IS_FREE: [Step; 9] = [
    Gives("put", MAP, &[Value::Null, Value::Int(4)], Value::Null),
    Left(0),
    Gives("size", MAP, &[], Value::Int(1)),
    Gives("isEmpty", MAP, &[], Value::Bool(false)),
    Gives("get", MAP, &[Value::Null], Value::Int(4)),
    Gives("getAt", MAP, &[Value::Int(0)], Value::Null),
    Gives("containsKey", MAP, &[Value::Null], Value::Bool(true)),
    Gives("get", MAP, &[Value::Null, Value::Int(9)], Value::Int(4)),
    Holds(MAP, &[(Value::Null, Value::Int(4))]),
];

#[test]
fn reading_is_free(rt: HostRuntime) -> Result<(), Fail> {
    assert_eq!(rt; first_wrong(rt.alloc(), 1, &READING_IS_FREE)?, None);
    Ok(())
}

const KEYS_AND_VALUES_ARE_LISTS: [Step; 12] = [
    Gives("put", MAP, &[TEXT, Value::Int(1)], Value::Null),
    Gives("put", MAP, &[Value::Null, Value::Int(2)], Value::Null),
    Gives("put", MAP, &[Value::Int(7), Value::Int(1)], Value::Null),
    Gives("put", MAP, &[TEXT_AGAIN, Value::Int(5)], Value::Int(1)),
    Left(8),
    Gives("keySet", MAP, &[], FIRST_NEW),
    Left(4),
    Lists(FIRST_NEW, &[TEXT, Value::Null, Value::Int(7)]),
    Gives("values", MAP, &[], SECOND_NEW),
    Left(0),
    Lists(SECOND_NEW, &[Value::Int(5), Value::Int(2), Value::Int(1)]),
    Holds(
        MAP,
        &[
            (TEXT, Value::Int(5)),
            (Value::Null, Value::Int(2)),
            (Value::Int(7), Value::Int(1)),
        ],
    ),
];

// Each new List takes a cell and one for each of three elements.
#[test]
fn keys_and_values_are_lists(rt: HostRuntime) -> Result<(), Fail> {
    assert_eq!(rt;
        first_wrong(rt.alloc(), 11, &KEYS_AND_VALUES_ARE_LISTS)?,
        None
    );
    Ok(())
}

const LISTS_ARE_PRICED_AS_A_WHOLE: [Step; 9] = [
    Gives("put", MAP, &[Value::Int(1), Value::Int(2)], Value::Null),
    Left(1),
    Spends("keySet", MAP, &[]),
    Spends("values", MAP, &[]),
    Left(1),
    Gives("keySet", MORE, &[], FIRST_NEW),
    Lists(FIRST_NEW, &[]),
    Left(0),
    Spends("values", MORE, &[]),
];

#[test]
fn lists_are_priced_as_a_whole(rt: HostRuntime) -> Result<(), Fail> {
    assert_eq!(rt;
        first_wrong(rt.alloc(), 2, &LISTS_ARE_PRICED_AS_A_WHOLE)?,
        None
    );
    Ok(())
}

const EMPTY_VALUES: [Step; 4] = [
    Gives("values", MORE, &[], FIRST_NEW),
    Lists(FIRST_NEW, &[]),
    Left(0),
    Spends("keySet", MORE, &[]),
];

#[test]
fn empty_values(rt: HostRuntime) -> Result<(), Fail> {
    assert_eq!(rt; first_wrong(rt.alloc(), 1, &EMPTY_VALUES)?, None);
    Ok(())
}
