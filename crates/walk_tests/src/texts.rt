use crate::tables::{Said, wrong_text};
use gv_base::Value;
use gv_base::Value::{Bool, Class, Int, Long, Null};
use gv_classes::{INTEGER, STRING};
use gv_texts::Question;
use gv_texts::Question::{AsBoolean, Call, Enter, Equals, HashCode, ToString};
use std::test::Fail;
use walk_world::{
    A, AROUND, DEEP, DOWN, EMPTY, ENTRY, F, ITEM, ITEMS, KINDS, LAZY, LIST, MAP, META_CLASS,
    META_MEMBER, META_METHOD, MIXED, NESTED, NO_LIST, NO_MAP, NO_PARTS, NO_RANGE, NO_TEXT, OF_BOTH,
    OF_INT, OF_ITEM, OF_ITEMS, OF_LIST, ONE, OTHER, OUTER, PIECES, SAID, THREE, UP, X,
};

/// Values that say a text at once, and those that are entered where nothing is around them.
const PLAIN: [Said; 30] = [
    (Null, &[], "null"),
    (Bool(true), &[], "true"),
    (Bool(false), &[], "false"),
    (Int(0), &[], "0"),
    (Int(-2147483648), &[], "-2147483648"),
    (Long(9223372036854775807), &[], "9223372036854775807"),
    (Class(STRING), &[], "class String"),
    (Class(INTEGER), &[], "class Integer"),
    (EMPTY, &[], ""),
    (A, &[], "a"),
    (F, &[], "Closure"),
    (META_CLASS, &[], "MetaClass"),
    (META_MEMBER, &[], "MetaMember"),
    (META_METHOD, &[], "MetaMethod"),
    (ENTRY, &[], "a=1"),
    (OUTER, &[], "x=a=1"),
    (NO_LIST, &[], "[]"),
    (LIST, &[], "[1, a]"),
    (THREE, &[], "[1, 2, 3]"),
    (SAID, &[], "[a=1, Closure, class String]"),
    (UP, &[], "[1, 2, 3]"),
    (DOWN, &[], "[3, 2, 1]"),
    (NO_RANGE, &[], "[]"),
    (NO_MAP, &[], "[:]"),
    (MAP, &[], "[a:1]"),
    (OF_INT, &[], "[1:null]"),
    (NO_PARTS, &[], ""),
    (NO_TEXT, &[], ""),
    (PIECES, &[], "ax"),
    (ONE, &[], "n=1"),
];

/// Values that lie in others are entered, and left again.
const ENTERED: [Said; 8] = [
    (
        NESTED,
        &[(NO_LIST, Enter, 1, Null), (LIST, Enter, 1, Null)],
        "[[], [1, a]]",
    ),
    (
        KINDS,
        &[
            (UP, Enter, 1, Null),
            (MAP, Enter, 1, Null),
            (PIECES, Enter, 1, Null),
        ],
        "[[1, 2, 3], [a:1], ax]",
    ),
    (OF_LIST, &[(LIST, Enter, 1, Null)], "[a:[1, a]]"),
    (AROUND, &[(LIST, Enter, 1, Null)], "a[1, a]x"),
    (
        DEEP,
        &[
            (NESTED, Enter, 1, Null),
            (NO_LIST, Enter, 2, Null),
            (LIST, Enter, 2, Null),
            (ITEM, ToString, 0, X),
        ],
        "[[[], [1, a]], x]",
    ),
    (
        OF_BOTH,
        &[(ITEM, ToString, 0, X), (LIST, Enter, 1, Null)],
        "x=[1, a]",
    ),
    (ITEMS, &[(ITEM, ToString, 0, A)], "[1, a, x]"),
    (
        OF_ITEMS,
        &[(ITEMS, Enter, 1, Null), (ITEM, ToString, 1, Null)],
        "[[1, null, x]]",
    ),
];

/// What an instance answers is said as any other value is.
const ANSWERED: [Said; 9] = [
    (ITEM, &[(ITEM, ToString, 0, A)], "a"),
    (ITEM, &[(ITEM, ToString, 0, EMPTY)], ""),
    (ITEM, &[(ITEM, ToString, 0, Null)], "null"),
    (ITEM, &[(ITEM, ToString, 0, Int(7))], "7"),
    (ITEM, &[(ITEM, ToString, 0, OUTER)], "x=a=1"),
    (
        ITEM,
        &[(ITEM, ToString, 0, LIST), (LIST, Enter, 1, Null)],
        "[1, a]",
    ),
    (
        ITEM,
        &[(ITEM, ToString, 0, OTHER), (OTHER, ToString, 0, X)],
        "x",
    ),
    (
        ITEM,
        &[(ITEM, ToString, 0, ITEM), (ITEM, ToString, 0, A)],
        "a",
    ),
    (
        ITEMS,
        &[
            (ITEM, ToString, 0, NESTED),
            (NESTED, Enter, 1, Null),
            (NO_LIST, Enter, 2, Null),
            (LIST, Enter, 2, Null),
        ],
        "[1, [[], [1, a]], x]",
    ),
];

/// The parts of a string that are asked.
const PARTS: [Said; 7] = [
    (OF_ITEM, &[(ITEM, ToString, 0, X)], "x"),
    (MIXED, &[(F, Call, 0, X)], "n=1x"),
    (MIXED, &[(F, Call, 0, Null)], "n=1null"),
    (
        MIXED,
        &[(F, Call, 0, LIST), (LIST, Enter, 1, Null)],
        "n=1[1, a]",
    ),
    (MIXED, &[(F, Call, 0, ITEM), (ITEM, ToString, 0, A)], "n=1a"),
    (
        MIXED,
        &[
            (F, Call, 0, MIXED),
            (MIXED, Enter, 1, Null),
            (F, Call, 1, A),
        ],
        "n=1n=1a",
    ),
    (
        LAZY,
        &[(F, Call, 0, NO_MAP), (NO_MAP, Enter, 1, Null)],
        "[:]",
    ),
];

/// Values that lie in another one, each by itself.
const INNER: [Said; 6] = [
    (A, &[], "a"),
    (OUTER, &[], "x=a=1"),
    (LIST, &[(LIST, Enter, 1, Null)], "[1, a]"),
    (NO_MAP, &[(NO_MAP, Enter, 1, Null)], "[:]"),
    (ITEM, &[(ITEM, ToString, 0, A)], "a"),
    (MIXED, &[(MIXED, Enter, 1, Null), (F, Call, 1, X)], "n=1x"),
];

/// Each question, the name of the call that asks it, and its argument.
const CALLS: [(Question, &str, Option<Value>); 6] = [
    (Enter, "#enter", None),
    (ToString, "toString", None),
    (Call, "call", None),
    (AsBoolean, "asBoolean", None),
    (Equals(A), "equals", Some(A)),
    (HashCode, "hashCode", None),
];

#[test]
fn plain(rt: HostRuntime) -> Result<(), Fail> {
    assert_eq!(rt; wrong_text(rt.alloc(), false, &PLAIN)?, None);
    Ok(())
}

#[test]
fn entered(rt: HostRuntime) -> Result<(), Fail> {
    assert_eq!(rt; wrong_text(rt.alloc(), false, &ENTERED)?, None);
    Ok(())
}

#[test]
fn answered(rt: HostRuntime) -> Result<(), Fail> {
    assert_eq!(rt; wrong_text(rt.alloc(), false, &ANSWERED)?, None);
    Ok(())
}

#[test]
fn parts(rt: HostRuntime) -> Result<(), Fail> {
    assert_eq!(rt; wrong_text(rt.alloc(), false, &PARTS)?, None);
    Ok(())
}

#[test]
fn inner(rt: HostRuntime) -> Result<(), Fail> {
    assert_eq!(rt; wrong_text(rt.alloc(), true, &INNER)?, None);
    Ok(())
}

#[test]
fn calls(rt: HostRuntime) {
    for (question, name, argument) in CALLS {
        assert_eq!(rt; question.name(), name);
        assert_eq!(rt; question.argument(), argument);
    }
}
