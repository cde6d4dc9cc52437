use crate::strings::cases::{Made, is_refused, wrong_text};
use crate::strings::world::{
    AA, AAAA, AB, EMPTY, EURO, FROM_END, HELLO, L, NONE, NOWHERE, OPEN, PLACES, SPACED, TO_END, UP,
    WIDE, WORD,
};
use gv_base::Value;
use std::test::Fail;

/// The characters at a place, and at several.
const CHARACTERS: [Made; 15] = [
    (HELLO, "getAt", &[Value::Int(0)], "h", 2),
    (HELLO, "getAt", &[Value::Int(-1)], "o", 2),
    (HELLO, "getAt", &[Value::Int(-5)], "h", 2),
    (WIDE, "getAt", &[Value::Int(2)], "€", 2),
    (WIDE, "getAt", &[Value::Int(-1)], "😀", 2),
    (HELLO, "getAt", &[PLACES], "lho", 2),
    (HELLO, "getAt", &[NOWHERE], "", 1),
    (EMPTY, "getAt", &[NOWHERE], "", 1),
    (WIDE, "getAt", &[PLACES], "€a😀", 2),
    (HELLO, "getAt", &[UP], "ell", 2),
    (HELLO, "getAt", &[OPEN], "he", 2),
    (HELLO, "getAt", &[FROM_END], "olleh", 2),
    (HELLO, "getAt", &[TO_END], "ello", 2),
    (EMPTY, "getAt", &[NONE], "", 1),
    (WIDE, "getAt", &[UP], "ß€😀", 3),
];

/// The characters between two places.
const PARTS: [Made; 10] = [
    (HELLO, "substring", &[Value::Int(0)], "hello", 2),
    (HELLO, "substring", &[Value::Int(2)], "llo", 2),
    (HELLO, "substring", &[Value::Int(5)], "", 1),
    (EMPTY, "substring", &[Value::Int(0)], "", 1),
    (WIDE, "substring", &[Value::Int(1)], "ß€😀", 3),
    (HELLO, "substring", &[Value::Int(1), Value::Int(3)], "el", 2),
    (
        HELLO,
        "substring",
        &[Value::Int(0), Value::Int(5)],
        "hello",
        2,
    ),
    (HELLO, "substring", &[Value::Int(2), Value::Int(2)], "", 1),
    (HELLO, "substring", &[Value::Int(5), Value::Int(5)], "", 1),
    (WIDE, "substring", &[Value::Int(1), Value::Int(3)], "ß€", 2),
];

/// A text with another for a part.
const REPLACED: [Made; 6] = [
    (HELLO, "replace", &[L, EURO], "he€€o", 3),
    (HELLO, "replace", &[L, EMPTY], "heo", 2),
    (AB, "replace", &[EMPTY, L], "lalbl", 2),
    (EMPTY, "replace", &[EMPTY, L], "l", 2),
    (AAAA, "replace", &[AA, L], "ll", 2),
    (HELLO, "replace", &[EURO, L], "hello", 2),
];

/// A text trimmed, and backwards.
const TURNED: [Made; 7] = [
    (SPACED, "trim", &[], "a b", 2),
    (WORD, "trim", &[], "x1", 2),
    (HELLO, "trim", &[], "hello", 2),
    (EMPTY, "trim", &[], "", 1),
    (HELLO, "reverse", &[], "olleh", 2),
    (WIDE, "reverse", &[], "😀€ßa", 3),
    (EMPTY, "reverse", &[], "", 1),
];

/// A text so many times.
const REPEATED: [Made; 7] = [
    (HELLO, "multiply", &[Value::Int(2)], "hellohello", 3),
    (HELLO, "multiply", &[Value::Int(0)], "", 1),
    (HELLO, "multiply", &[Value::Int(1)], "hello", 2),
    (AB, "multiply", &[Value::Long(3)], "ababab", 2),
    (WIDE, "multiply", &[Value::Int(2)], "aß€😀aß€😀", 4),
    (EMPTY, "multiply", &[Value::Int(2147483647)], "", 1),
    (
        EMPTY,
        "multiply",
        &[Value::Long(9223372036854775807)],
        "",
        1,
    ),
];

/// A text made longer.
const PADDED: [Made; 11] = [
    (HELLO, "padLeft", &[Value::Int(7)], "  hello", 2),
    (HELLO, "padLeft", &[Value::Int(5)], "hello", 2),
    (HELLO, "padLeft", &[Value::Int(-3)], "hello", 2),
    (HELLO, "padRight", &[Value::Int(7)], "hello  ", 2),
    (HELLO, "padRight", &[Value::Int(0)], "hello", 2),
    (WIDE, "padLeft", &[Value::Int(5)], " aß€😀", 3),
    (HELLO, "padLeft", &[Value::Int(8), AB], "abahello", 2),
    (HELLO, "padRight", &[Value::Int(8), AB], "helloaba", 2),
    (HELLO, "padLeft", &[Value::Int(7), WIDE], "aßhello", 2),
    (WIDE, "padLeft", &[Value::Int(6), EURO], "€€aß€😀", 3),
    (HELLO, "padRight", &[Value::Int(3), L], "hello", 2),
];

#[test]
fn characters(rt: HostRuntime) -> Result<(), Fail> {
    assert_eq!(rt; wrong_text(rt.alloc(), &CHARACTERS)?, None);
    Ok(())
}

#[test]
fn parts(rt: HostRuntime) -> Result<(), Fail> {
    assert_eq!(rt; wrong_text(rt.alloc(), &PARTS)?, None);
    Ok(())
}

#[test]
fn replaced(rt: HostRuntime) -> Result<(), Fail> {
    assert_eq!(rt; wrong_text(rt.alloc(), &REPLACED)?, None);
    Ok(())
}

#[test]
fn turned(rt: HostRuntime) -> Result<(), Fail> {
    assert_eq!(rt; wrong_text(rt.alloc(), &TURNED)?, None);
    Ok(())
}

#[test]
fn repeated(rt: HostRuntime) -> Result<(), Fail> {
    assert_eq!(rt; wrong_text(rt.alloc(), &REPEATED)?, None);
    Ok(())
}

#[test]
fn padded(rt: HostRuntime) -> Result<(), Fail> {
    assert_eq!(rt; wrong_text(rt.alloc(), &PADDED)?, None);
    Ok(())
}

/// A text that the cells don't pay isn't built.
#[test]
fn too_dear(rt: HostRuntime) -> Result<(), Fail> {
    let alloc = rt.alloc();
    let long = Value::Int(2000000000);
    assert!(rt; is_refused(alloc, HELLO, "multiply", &[long], 100)?);
    assert!(rt; is_refused(alloc, HELLO, "padLeft", &[long], 100)?);
    assert!(rt; is_refused(alloc, HELLO, "padRight", &[long, AB], 100)?);
    Ok(())
}
