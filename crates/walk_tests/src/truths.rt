use crate::tables::{Held, wrong_truth};
use gv_base::Value::{Bool, Class, Int, Long, Null};
use gv_classes::STRING;
use gv_texts::Question::{AsBoolean, Call, Enter, ToString};
use std::test::Fail;
use walk_world::{
    A, AROUND, EMPTY, ENTRY, F, ITEM, LAZY, LIST, MAP, META_CLASS, NO_LIST, NO_MAP, NO_PARTS,
    NO_RANGE, NO_TEXT, OF_ITEM, ONE, OTHER, PIECES, UP, X,
};

/// Values that nobody is asked about.
const PLAIN: [Held; 23] = [
    (Null, &[], false),
    (Bool(true), &[], true),
    (Bool(false), &[], false),
    (Int(0), &[], false),
    (Int(-1), &[], true),
    (Long(0), &[], false),
    (Long(4294967296), &[], true),
    (Class(STRING), &[], true),
    (EMPTY, &[], false),
    (A, &[], true),
    (NO_LIST, &[], false),
    (LIST, &[], true),
    (NO_RANGE, &[], false),
    (UP, &[], true),
    (NO_MAP, &[], false),
    (MAP, &[], true),
    (F, &[], true),
    (ENTRY, &[], true),
    (META_CLASS, &[], true),
    (NO_PARTS, &[], false),
    (NO_TEXT, &[], false),
    (PIECES, &[], true),
    (ONE, &[], true),
];

/// An instance is false where it answers so, or null, and nobody is asked about its answer.
const ANSWERED: [Held; 7] = [
    (ITEM, &[(ITEM, AsBoolean, 0, Null)], false),
    (ITEM, &[(ITEM, AsBoolean, 0, Bool(false))], false),
    (ITEM, &[(ITEM, AsBoolean, 0, Bool(true))], true),
    (ITEM, &[(ITEM, AsBoolean, 0, Int(0))], true),
    (ITEM, &[(ITEM, AsBoolean, 0, EMPTY)], true),
    (ITEM, &[(ITEM, AsBoolean, 0, NO_LIST)], true),
    (ITEM, &[(ITEM, AsBoolean, 0, OTHER)], true),
];

/// A string with parts is true where its text isn't empty.
const PARTS: [Held; 8] = [
    (OF_ITEM, &[(ITEM, ToString, 0, EMPTY)], false),
    (OF_ITEM, &[(ITEM, ToString, 0, X)], true),
    (OF_ITEM, &[(ITEM, ToString, 0, Null)], true),
    (LAZY, &[(F, Call, 0, EMPTY)], false),
    (LAZY, &[(F, Call, 0, Bool(false))], true),
    (
        LAZY,
        &[(F, Call, 0, NO_PARTS), (NO_PARTS, Enter, 1, Null)],
        false,
    ),
    (
        LAZY,
        &[(F, Call, 0, NO_LIST), (NO_LIST, Enter, 1, Null)],
        true,
    ),
    (AROUND, &[(LIST, Enter, 1, Null)], true),
];

#[test]
fn plain(rt: HostRuntime) -> Result<(), Fail> {
    assert_eq!(rt; wrong_truth(rt.alloc(), &PLAIN)?, None);
    Ok(())
}

#[test]
fn answered(rt: HostRuntime) -> Result<(), Fail> {
    assert_eq!(rt; wrong_truth(rt.alloc(), &ANSWERED)?, None);
    Ok(())
}

#[test]
fn parts(rt: HostRuntime) -> Result<(), Fail> {
    assert_eq!(rt; wrong_truth(rt.alloc(), &PARTS)?, None);
    Ok(())
}
