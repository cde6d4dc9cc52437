use crate::maps::world::Step::{Gives, Holds, Left, Throws};
use crate::maps::world::{
    CLOSURE, DIGIT, ENTRY, GSTRING, LARGE, LIST, MAP, MORE, OTHER, PLAIN, RANGE, SAME, SMALL, Step,
    TEXT, TEXT_AGAIN, UNDER, first_wrong,
};
use gv_base::ExceptionKind::UnsupportedOperationException;
use gv_base::Value;
use std::test::Fail;

const NO_KEY_IS_READ: [Step; 18] = [
    Gives("put", MAP, &[Value::Int(1), Value::Int(7)], Value::Null),
    Throws(
        "get",
        MAP,
        &[LIST],
        UnsupportedOperationException,
        "Map key of class List",
    ),
    Throws(
        "containsKey",
        MAP,
        &[LIST],
        UnsupportedOperationException,
        "Map key of class List",
    ),
    Throws(
        "get",
        MAP,
        &[MORE],
        UnsupportedOperationException,
        "Map key of class Map",
    ),
    Throws(
        "containsKey",
        MAP,
        &[MORE],
        UnsupportedOperationException,
        "Map key of class Map",
    ),
    Throws(
        "get",
        MAP,
        &[RANGE],
        UnsupportedOperationException,
        "Map key of class Range",
    ),
    Throws(
        "containsKey",
        MAP,
        &[RANGE],
        UnsupportedOperationException,
        "Map key of class Range",
    ),
    Throws(
        "get",
        MAP,
        &[CLOSURE],
        UnsupportedOperationException,
        "Map key of class Closure",
    ),
    Throws(
        "containsKey",
        MAP,
        &[CLOSURE],
        UnsupportedOperationException,
        "Map key of class Closure",
    ),
    Throws(
        "get",
        MAP,
        &[GSTRING],
        UnsupportedOperationException,
        "Map key of class GString",
    ),
    Throws(
        "containsKey",
        MAP,
        &[GSTRING],
        UnsupportedOperationException,
        "Map key of class GString",
    ),
    Throws(
        "get",
        MAP,
        &[ENTRY],
        UnsupportedOperationException,
        "Map key of class Entry",
    ),
    Throws(
        "containsKey",
        MAP,
        &[ENTRY],
        UnsupportedOperationException,
        "Map key of class Entry",
    ),
    Throws(
        "get",
        MAP,
        &[SAME],
        UnsupportedOperationException,
        "Map key of class Same",
    ),
    Throws(
        "containsKey",
        MAP,
        &[SAME],
        UnsupportedOperationException,
        "Map key of class Same",
    ),
    Throws(
        "get",
        MAP,
        &[UNDER],
        UnsupportedOperationException,
        "Map key of class Under",
    ),
    Throws(
        "containsKey",
        MAP,
        &[UNDER],
        UnsupportedOperationException,
        "Map key of class Under",
    ),
    Holds(MAP, &[(Value::Int(1), Value::Int(7))]),
];

#[test]
fn no_key_is_read(rt: HostRuntime) -> Result<(), Fail> {
    assert_eq!(rt; first_wrong(rt.alloc(), 1, &NO_KEY_IS_READ)?, None);
    Ok(())
}

const NO_KEY_IS_READ_OR_REMOVED: [Step; 18] = [
    Gives("put", MAP, &[Value::Int(1), Value::Int(7)], Value::Null),
    Throws(
        "getAt",
        MAP,
        &[LIST],
        UnsupportedOperationException,
        "Map key of class List",
    ),
    Throws(
        "remove",
        MAP,
        &[LIST],
        UnsupportedOperationException,
        "Map key of class List",
    ),
    Throws(
        "getAt",
        MAP,
        &[MORE],
        UnsupportedOperationException,
        "Map key of class Map",
    ),
    Throws(
        "remove",
        MAP,
        &[MORE],
        UnsupportedOperationException,
        "Map key of class Map",
    ),
    Throws(
        "getAt",
        MAP,
        &[RANGE],
        UnsupportedOperationException,
        "Map key of class Range",
    ),
    Throws(
        "remove",
        MAP,
        &[RANGE],
        UnsupportedOperationException,
        "Map key of class Range",
    ),
    Throws(
        "getAt",
        MAP,
        &[CLOSURE],
        UnsupportedOperationException,
        "Map key of class Closure",
    ),
    Throws(
        "remove",
        MAP,
        &[CLOSURE],
        UnsupportedOperationException,
        "Map key of class Closure",
    ),
    Throws(
        "getAt",
        MAP,
        &[GSTRING],
        UnsupportedOperationException,
        "Map key of class GString",
    ),
    Throws(
        "remove",
        MAP,
        &[GSTRING],
        UnsupportedOperationException,
        "Map key of class GString",
    ),
    Throws(
        "getAt",
        MAP,
        &[ENTRY],
        UnsupportedOperationException,
        "Map key of class Entry",
    ),
    Throws(
        "remove",
        MAP,
        &[ENTRY],
        UnsupportedOperationException,
        "Map key of class Entry",
    ),
    Throws(
        "getAt",
        MAP,
        &[SAME],
        UnsupportedOperationException,
        "Map key of class Same",
    ),
    Throws(
        "remove",
        MAP,
        &[SAME],
        UnsupportedOperationException,
        "Map key of class Same",
    ),
    Throws(
        "getAt",
        MAP,
        &[UNDER],
        UnsupportedOperationException,
        "Map key of class Under",
    ),
    Throws(
        "remove",
        MAP,
        &[UNDER],
        UnsupportedOperationException,
        "Map key of class Under",
    ),
    Holds(MAP, &[(Value::Int(1), Value::Int(7))]),
];

#[test]
fn no_key_is_read_or_removed(rt: HostRuntime) -> Result<(), Fail> {
    assert_eq!(rt;
        first_wrong(rt.alloc(), 1, &NO_KEY_IS_READ_OR_REMOVED)?,
        None
    );
    Ok(())
}

const NO_KEY_IS_PUT: [Step; 18] = [
    Throws(
        "put",
        MAP,
        &[LIST, Value::Int(5)],
        UnsupportedOperationException,
        "Map key of class List",
    ),
    Throws(
        "putAt",
        MAP,
        &[LIST, Value::Int(5)],
        UnsupportedOperationException,
        "Map key of class List",
    ),
    Throws(
        "put",
        MAP,
        &[MORE, Value::Int(5)],
        UnsupportedOperationException,
        "Map key of class Map",
    ),
    Throws(
        "putAt",
        MAP,
        &[MORE, Value::Int(5)],
        UnsupportedOperationException,
        "Map key of class Map",
    ),
    Throws(
        "put",
        MAP,
        &[RANGE, Value::Int(5)],
        UnsupportedOperationException,
        "Map key of class Range",
    ),
    Throws(
        "putAt",
        MAP,
        &[RANGE, Value::Int(5)],
        UnsupportedOperationException,
        "Map key of class Range",
    ),
    Throws(
        "put",
        MAP,
        &[CLOSURE, Value::Int(5)],
        UnsupportedOperationException,
        "Map key of class Closure",
    ),
    Throws(
        "putAt",
        MAP,
        &[CLOSURE, Value::Int(5)],
        UnsupportedOperationException,
        "Map key of class Closure",
    ),
    Throws(
        "put",
        MAP,
        &[GSTRING, Value::Int(5)],
        UnsupportedOperationException,
        "Map key of class GString",
    ),
    Throws(
        "putAt",
        MAP,
        &[GSTRING, Value::Int(5)],
        UnsupportedOperationException,
        "Map key of class GString",
    ),
    Throws(
        "put",
        MAP,
        &[ENTRY, Value::Int(5)],
        UnsupportedOperationException,
        "Map key of class Entry",
    ),
    Throws(
        "putAt",
        MAP,
        &[ENTRY, Value::Int(5)],
        UnsupportedOperationException,
        "Map key of class Entry",
    ),
    Throws(
        "put",
        MAP,
        &[SAME, Value::Int(5)],
        UnsupportedOperationException,
        "Map key of class Same",
    ),
    Throws(
        "putAt",
        MAP,
        &[SAME, Value::Int(5)],
        UnsupportedOperationException,
        "Map key of class Same",
    ),
    Throws(
        "put",
        MAP,
        &[UNDER, Value::Int(5)],
        UnsupportedOperationException,
        "Map key of class Under",
    ),
    Throws(
        "putAt",
        MAP,
        &[UNDER, Value::Int(5)],
        UnsupportedOperationException,
        "Map key of class Under",
    ),
    Holds(MAP, &[]),
    Left(0),
];

// It throws though no cell is left.
#[test]
fn no_key_is_put(rt: HostRuntime) -> Result<(), Fail> {
    assert_eq!(rt; first_wrong(rt.alloc(), 0, &NO_KEY_IS_PUT)?, None);
    Ok(())
}

const NO_KEY_IS_GOT_OR_PUT: [Step; 11] = [
    Throws(
        "get",
        MAP,
        &[LIST, Value::Int(5)],
        UnsupportedOperationException,
        "Map key of class List",
    ),
    Throws(
        "get",
        MAP,
        &[MORE, Value::Int(5)],
        UnsupportedOperationException,
        "Map key of class Map",
    ),
    Throws(
        "get",
        MAP,
        &[RANGE, Value::Int(5)],
        UnsupportedOperationException,
        "Map key of class Range",
    ),
    Throws(
        "get",
        MAP,
        &[CLOSURE, Value::Int(5)],
        UnsupportedOperationException,
        "Map key of class Closure",
    ),
    Throws(
        "get",
        MAP,
        &[GSTRING, Value::Int(5)],
        UnsupportedOperationException,
        "Map key of class GString",
    ),
    Throws(
        "get",
        MAP,
        &[ENTRY, Value::Int(5)],
        UnsupportedOperationException,
        "Map key of class Entry",
    ),
    Throws(
        "get",
        MAP,
        &[SAME, Value::Int(5)],
        UnsupportedOperationException,
        "Map key of class Same",
    ),
    Throws(
        "get",
        MAP,
        &[UNDER, Value::Int(5)],
        UnsupportedOperationException,
        "Map key of class Under",
    ),
    Throws(
        "put",
        MAP,
        &[MAP, Value::Null],
        UnsupportedOperationException,
        "Map key of class Map",
    ),
    Holds(MAP, &[]),
    Left(0),
];

// A map is no key of itself either.
#[test]
fn no_key_is_got_or_put(rt: HostRuntime) -> Result<(), Fail> {
    assert_eq!(rt; first_wrong(rt.alloc(), 0, &NO_KEY_IS_GOT_OR_PUT)?, None);
    Ok(())
}

const EACH_KEY_HAS_ITS_VALUE: [Step; 22] = [
    Gives("put", MAP, &[Value::Null, Value::Int(10)], Value::Null),
    Gives(
        "put",
        MAP,
        &[Value::Bool(true), Value::Int(11)],
        Value::Null,
    ),
    Gives("put", MAP, &[Value::Int(1), Value::Int(12)], Value::Null),
    Gives("put", MAP, &[Value::Long(1), Value::Int(13)], Value::Null),
    Gives("put", MAP, &[TEXT, Value::Int(14)], Value::Null),
    Gives("put", MAP, &[Value::Class(3), Value::Int(15)], Value::Null),
    Gives("put", MAP, &[PLAIN, Value::Int(16)], Value::Null),
    Left(0),
    Gives("get", MAP, &[Value::Null], Value::Int(10)),
    Gives("getAt", MAP, &[Value::Bool(true)], Value::Int(11)),
    Gives("get", MAP, &[Value::Int(1)], Value::Int(12)),
    Gives("getAt", MAP, &[Value::Long(1)], Value::Int(13)),
    Gives("get", MAP, &[TEXT_AGAIN], Value::Int(14)),
    Gives("getAt", MAP, &[Value::Class(3)], Value::Int(15)),
    Gives("get", MAP, &[PLAIN], Value::Int(16)),
    Gives("get", MAP, &[Value::Bool(false)], Value::Null),
    Gives("getAt", MAP, &[Value::Int(2)], Value::Null),
    Gives("get", MAP, &[Value::Long(2)], Value::Null),
    Gives("getAt", MAP, &[DIGIT], Value::Null),
    Gives("get", MAP, &[Value::Class(1)], Value::Null),
    Gives("get", MAP, &[OTHER], Value::Null),
    Gives("size", MAP, &[], Value::Int(7)),
];

#[test]
fn each_key_has_its_value(rt: HostRuntime) -> Result<(), Fail> {
    assert_eq!(rt; first_wrong(rt.alloc(), 7, &EACH_KEY_HAS_ITS_VALUE)?, None);
    Ok(())
}

const EACH_KEY_IS_THERE: [Step; 15] = [
    Gives("containsKey", MAP, &[Value::Null], Value::Bool(false)),
    Gives("put", MAP, &[Value::Null, Value::Null], Value::Null),
    Gives(
        "put",
        MAP,
        &[Value::Long(1), Value::Bool(false)],
        Value::Null,
    ),
    Gives("put", MAP, &[LARGE, Value::Int(3)], Value::Null),
    Gives("put", MAP, &[OTHER, Value::Int(4)], Value::Null),
    Gives("containsKey", MAP, &[Value::Null], Value::Bool(true)),
    Gives("containsKey", MAP, &[Value::Long(1)], Value::Bool(true)),
    Gives("containsKey", MAP, &[Value::Int(1)], Value::Bool(false)),
    Gives("containsKey", MAP, &[DIGIT], Value::Bool(false)),
    Gives("containsKey", MAP, &[LARGE], Value::Bool(true)),
    Gives("containsKey", MAP, &[SMALL], Value::Bool(false)),
    Gives("containsKey", MAP, &[Value::Int(3)], Value::Bool(false)),
    Gives(
        "containsKey",
        MAP,
        &[Value::Bool(false)],
        Value::Bool(false),
    ),
    Gives("containsKey", MAP, &[OTHER], Value::Bool(true)),
    Gives("containsKey", MAP, &[PLAIN], Value::Bool(false)),
];

#[test]
fn each_key_is_there(rt: HostRuntime) -> Result<(), Fail> {
    assert_eq!(rt; first_wrong(rt.alloc(), 4, &EACH_KEY_IS_THERE)?, None);
    Ok(())
}
