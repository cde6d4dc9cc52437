use crate::tables::{Paired, wrong_pair};
use gv_base::Value::{Bool, Class, Int, Long, Null};
use gv_classes::{INTEGER, STRING};
use gv_texts::Question::{AsBoolean, Call, Enter, Equals, ToString};
use std::test::Fail;
use walk_world::{
    A, AB, AROUND, AROUND_AX, AROUND_PIECES, AX, BA, DEEP, DEEP_TWIN, DOWN, EMPTY, ENTRY, F, G,
    ITEM, ITEMS, LIKE_ENTRY, LIST, LONGS, MAP, META_CLASS, MIXED, N1, NESTED, NO_LIST, NO_MAP,
    NO_PARTS, NO_RANGE, NO_TEXT, OF_AX, OF_INT, OF_ITEM, OF_ITEMS, OF_LIST, OF_LONG, OF_LONGS,
    OF_PIECES, ONE, OTHER, PIECES, THREE, TURNED, TWIN, UNLIKE, UP, X, X_MAP,
};

/// Values that nobody is asked about: numbers by their values, null as itself alone, and the rest as the same ones.
const PLAIN: [Paired; 26] = [
    (Null, Null, &[], true),
    (Null, Bool(false), &[], false),
    (Null, ITEM, &[], false),
    (ITEM, Null, &[], false),
    (Int(1), Int(2), &[], false),
    (Int(1), Long(1), &[], true),
    (Long(-1), Int(-1), &[], true),
    (Long(4294967297), Int(1), &[], false),
    (Bool(true), Bool(true), &[], true),
    (Bool(true), Int(1), &[], false),
    (Bool(true), A, &[], false),
    (A, Bool(true), &[], false),
    (Class(STRING), Class(STRING), &[], true),
    (Class(STRING), Class(INTEGER), &[], false),
    (Class(STRING), F, &[], false),
    (F, F, &[], true),
    (F, G, &[], false),
    (ENTRY, ENTRY, &[], true),
    (ENTRY, LIKE_ENTRY, &[], false),
    (META_CLASS, META_CLASS, &[], true),
    (A, ITEM, &[], false),
    (Int(1), ITEM, &[], false),
    (LIST, ITEM, &[], false),
    (F, ITEM, &[], false),
    (A, LIST, &[], false),
    (LIST, MAP, &[], false),
];

/// Strings, with parts or without, are compared by their texts, the left one first.
const TEXTS: [Paired; 18] = [
    (A, A, &[], true),
    (A, X, &[], false),
    (A, AX, &[], false),
    (AX, PIECES, &[], true),
    (PIECES, AX, &[], true),
    (N1, ONE, &[], true),
    (ONE, PIECES, &[], false),
    (NO_TEXT, NO_PARTS, &[], true),
    (MIXED, N1, &[(F, Call, 0, EMPTY)], true),
    (N1, MIXED, &[(F, Call, 0, X)], false),
    (MIXED, MIXED, &[(F, Call, 0, A), (F, Call, 0, X)], false),
    (MIXED, MIXED, &[(F, Call, 0, A), (F, Call, 0, A)], true),
    (OF_ITEM, A, &[(ITEM, ToString, 0, A)], true),
    (
        A,
        OF_ITEM,
        &[(ITEM, ToString, 0, LIST), (LIST, Enter, 1, Null)],
        false,
    ),
    (A, AROUND, &[(LIST, Enter, 1, Null)], false),
    (OF_PIECES, OF_AX, &[(PIECES, Enter, 1, Null)], true),
    (OF_AX, OF_PIECES, &[(PIECES, Enter, 1, Null)], true),
    (
        AROUND_PIECES,
        AROUND_AX,
        &[(OF_PIECES, Enter, 1, Null), (PIECES, Enter, 2, Null)],
        true,
    ),
];

/// An instance on the left is asked, and the truth of its answer tells.
const ANSWERED: [Paired; 12] = [
    (ITEM, A, &[(ITEM, Equals(A), 0, Bool(true))], true),
    (ITEM, A, &[(ITEM, Equals(A), 0, Bool(false))], false),
    (ITEM, A, &[(ITEM, Equals(A), 0, Null)], false),
    (ITEM, A, &[(ITEM, Equals(A), 0, Int(0))], false),
    (ITEM, A, &[(ITEM, Equals(A), 0, EMPTY)], false),
    (ITEM, A, &[(ITEM, Equals(A), 0, NO_LIST)], false),
    (ITEM, A, &[(ITEM, Equals(A), 0, X)], true),
    (ITEM, Int(1), &[(ITEM, Equals(Int(1)), 0, F)], true),
    (ITEM, ITEM, &[(ITEM, Equals(ITEM), 0, Bool(false))], false),
    (
        ITEM,
        OTHER,
        &[(ITEM, Equals(OTHER), 0, ITEM), (ITEM, AsBoolean, 0, Int(0))],
        true,
    ),
    (
        ITEM,
        OTHER,
        &[(ITEM, Equals(OTHER), 0, OTHER), (OTHER, AsBoolean, 0, Null)],
        false,
    ),
    (
        ITEM,
        OTHER,
        &[
            (ITEM, Equals(OTHER), 0, OF_ITEM),
            (ITEM, ToString, 0, NO_PARTS),
            (NO_PARTS, Enter, 1, Null),
        ],
        false,
    ),
];

/// Lists and ranges by their elements. Other sizes are told without a question, and the first elements that differ end it.
const LISTS: [Paired; 17] = [
    (NO_LIST, NO_LIST, &[], true),
    (NO_LIST, LIST, &[], false),
    (NO_LIST, NO_RANGE, &[], true),
    (NO_LIST, NO_MAP, &[], false),
    (LIST, LONGS, &[], true),
    (UP, UP, &[], true),
    (UP, THREE, &[], true),
    (THREE, UP, &[], true),
    (DOWN, THREE, &[], false),
    (ITEMS, LIST, &[], false),
    (ITEMS, UNLIKE, &[], false),
    (NESTED, TURNED, &[], false),
    (
        NESTED,
        TWIN,
        &[(NO_LIST, Enter, 1, Null), (LIST, Enter, 1, Null)],
        true,
    ),
    (ITEMS, ITEMS, &[(ITEM, Equals(ITEM), 0, Bool(true))], true),
    (ITEMS, ITEMS, &[(ITEM, Equals(ITEM), 0, Null)], false),
    (
        OF_ITEMS,
        OF_ITEMS,
        &[(ITEMS, Enter, 1, Null), (ITEM, Equals(ITEM), 1, A)],
        true,
    ),
    (
        DEEP,
        DEEP_TWIN,
        &[
            (NESTED, Enter, 1, Null),
            (NO_LIST, Enter, 2, Null),
            (LIST, Enter, 2, Null),
            (ITEM, Equals(OTHER), 0, Bool(true)),
        ],
        true,
    ),
];

/// Maps by their keys, in whatever order these came.
const MAPS: [Paired; 11] = [
    (NO_MAP, NO_MAP, &[], true),
    (MAP, MAP, &[], true),
    (MAP, NO_MAP, &[], false),
    (MAP, X_MAP, &[], false),
    (MAP, OF_LIST, &[], false),
    (MAP, ENTRY, &[], false),
    (OF_INT, OF_INT, &[], true),
    (OF_INT, OF_LONG, &[], false),
    (OF_LIST, OF_LONGS, &[(LIST, Enter, 1, Null)], true),
    (AB, BA, &[(ITEM, Equals(OTHER), 0, A)], true),
    (BA, AB, &[(OTHER, Equals(ITEM), 0, EMPTY)], false),
];

#[test]
fn plain(rt: HostRuntime) -> Result<(), Fail> {
    assert_eq!(rt; wrong_pair(rt.alloc(), &PLAIN)?, None);
    Ok(())
}

#[test]
fn texts(rt: HostRuntime) -> Result<(), Fail> {
    assert_eq!(rt; wrong_pair(rt.alloc(), &TEXTS)?, None);
    Ok(())
}

#[test]
fn answered(rt: HostRuntime) -> Result<(), Fail> {
    assert_eq!(rt; wrong_pair(rt.alloc(), &ANSWERED)?, None);
    Ok(())
}

#[test]
fn lists(rt: HostRuntime) -> Result<(), Fail> {
    assert_eq!(rt; wrong_pair(rt.alloc(), &LISTS)?, None);
    Ok(())
}

#[test]
fn maps(rt: HostRuntime) -> Result<(), Fail> {
    assert_eq!(rt; wrong_pair(rt.alloc(), &MAPS)?, None);
    Ok(())
}
