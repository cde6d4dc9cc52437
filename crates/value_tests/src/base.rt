ghost use Rattle.std.specs.Prelude.{◌≡◌, ◌<◌};

use gv_base::ArithOp::{
    And, IntDiv, LeftShift, Minus, Mod, Multiply, Or, Plus, RightShift, RightShiftUnsigned, Xor,
};
use gv_base::Value::{Bool, Class, Int, Long, Null, Obj};
use gv_base::{
    Arith, ExceptionKind, Foreign, Names, RefusalKind, Steps, Text, arith, plain_equal, plain_hash,
    plain_truth,
};
use std::marker::Brand;
use std::sync::ledger::{Blank, Ledger};
use std::test::Fail;

// What Java's operators give.
#[test]
fn ints(rt: HostRuntime) {
    for (op, a, b, value) in [
        (Plus, 2147483647, 1, -2147483648),
        (Minus, -2147483648, 1, 2147483647),
        (Multiply, 1000003, 1000033, -691379869),
        (Mod, -7, 3, -1),
        (Mod, 7, -3, 1),
        (Mod, -2147483648, -1, 0),
        (IntDiv, -7, 3, -2),
        (IntDiv, 7, -3, -2),
        (IntDiv, -2147483648, -1, -2147483648),
        (LeftShift, -8, 33, -16),
        (LeftShift, 7, -3, -536870912),
        (RightShift, -7, 3, -1),
        (RightShift, -8, 33, -4),
        (RightShiftUnsigned, -7, 3, 536870911),
        (RightShiftUnsigned, -2147483648, -1, 1),
        (And, -7, 3, 1),
        (Or, -7, 3, -5),
        (Xor, -7, 3, -6),
    ] {
        assert_eq!(rt;
            arith(op, Int(a), Int(b)),
            Arith::Value(Int(value)),
            "{a} and {b}"
        );
    }
}

#[test]
fn longs(rt: HostRuntime) {
    for (op, a, b, value) in [
        (Plus, 9223372036854775807, 1, -9223372036854775808),
        (Minus, -9223372036854775808, 1, 9223372036854775807),
        (Multiply, 1000000000039, 1000000000061, 2003864205206899019),
        (Mod, -7, 3, -1),
        (Mod, 7, -3, 1),
        (Mod, -9223372036854775808, -1, 0),
        (IntDiv, -7, 3, -2),
        (IntDiv, 7, -3, -2),
        (IntDiv, -9223372036854775808, -1, -9223372036854775808),
        (LeftShift, -8, 65, -16),
        (LeftShift, 7, -3, -2305843009213693952),
        (RightShift, -7, 3, -1),
        (RightShift, -8, 65, -4),
        (RightShiftUnsigned, -7, 3, 2305843009213693951),
        (RightShiftUnsigned, -9223372036854775808, -1, 1),
        (And, -7, 3, 1),
        (Or, -7, 3, -5),
        (Xor, -7, 3, -6),
    ] {
        assert_eq!(rt;
            arith(op, Long(a), Long(b)),
            Arith::Value(Long(value)),
            "{a} and {b}"
        );
    }
}

#[test]
fn two_kinds(rt: HostRuntime) {
    for (op, a, b, answer) in [
        (
            Plus,
            Int(2147483647),
            Long(1),
            Arith::Value(Long(2147483648)),
        ),
        (
            IntDiv,
            Long(-2147483648),
            Int(-1),
            Arith::Value(Long(2147483648)),
        ),
        (
            And,
            Int(-1),
            Long(1099511627775),
            Arith::Value(Long(1099511627775)),
        ),
        (
            LeftShift,
            Int(-8),
            Long(4294967300),
            Arith::Value(Int(-128)),
        ),
        (RightShift, Int(-8), Long(33), Arith::Value(Int(-4))),
        (
            RightShiftUnsigned,
            Int(-8),
            Long(4294967300),
            Arith::Value(Int(268435455)),
        ),
        (
            LeftShift,
            Long(-8),
            Int(33),
            Arith::Value(Long(-68719476736)),
        ),
        (RightShiftUnsigned, Long(-8), Int(-1), Arith::Value(Long(1))),
        (Mod, Int(5), Int(0), Arith::ByZero),
        (IntDiv, Long(5), Int(0), Arith::ByZero),
        (LeftShift, Int(5), Int(0), Arith::Value(Int(5))),
        (Plus, Null, Int(1), Arith::NotNumbers),
        (IntDiv, Int(1), Null, Arith::NotNumbers),
    ] {
        assert_eq!(rt; arith(op, a, b), answer, "{a:?} and {b:?}");
    }
}

#[test]
fn names(rt: HostRuntime) -> Result<(), Fail> {
    let mut names = Names::new(rt.alloc());
    let size = names.intern("size")?;
    let get_size = names.intern("getSize")?;
    assert_eq!(rt; (size, get_size, names.intern("size")?), (0, 1, 0));
    assert_eq!(rt; names.text(get_size), "getSize");
    Ok(())
}

#[test]
fn accessors(rt: HostRuntime) -> Result<(), Fail> {
    let mut names = Names::new(rt.alloc());
    for text in [
        "size", "getSize", "setUrl", "url", "Url", "getUrl", "", "get", "getéa", "éa", "getsize",
    ] {
        names.intern(text)?;
    }
    let names = names.copy(rt.alloc())?;
    for (text, write, accessor) in [
        ("size", false, Some(1)),
        ("size", true, None),
        ("url", true, Some(2)),
        ("Url", true, Some(2)),
        ("Url", false, Some(5)),
        ("", false, Some(7)),
        ("éa", false, Some(8)),
        ("getsize", false, None),
    ] {
        if let Some(name) = names.find(text) {
            assert_eq!(rt; names.accessor(name, write), accessor, "{text}");
        } else {
            assert!(rt; false, "{text}");
        }
    }
    assert_eq!(rt; names.find("getElse"), None);
    Ok(())
}

#[test]
fn plain_values(rt: HostRuntime) {
    for (v, truth, hash) in [
        (Null, Some(false), Some(0)),
        (Bool(true), Some(true), Some(1231)),
        (Bool(false), Some(false), Some(1237)),
        (Int(-7), Some(true), Some(-7)),
        (Long(0), Some(false), Some(0)),
        (Long(-1), Some(true), Some(0)),
        (Long(4294967296), Some(true), Some(1)),
        (Long(2147483648), Some(true), Some(-2147483648)),
        (Class(0), Some(true), None),
        (Obj(0), None, None),
    ] {
        assert_eq!(rt; (plain_truth(v), plain_hash(v)), (truth, hash), "{v:?}");
    }
    for (a, b, equal) in [
        (Null, Null, Some(true)),
        (Null, Obj(0), Some(false)),
        (Obj(0), Obj(0), None),
        (Int(1), Long(1), Some(true)),
        (Long(4294967297), Int(1), Some(false)),
        (Int(1), Bool(true), Some(false)),
        (Class(3), Class(3), Some(true)),
        (Class(3), Obj(3), None),
    ] {
        assert_eq!(rt; plain_equal(a, b), equal, "{a:?} and {b:?}");
    }
}

#[test]
fn texts(rt: HostRuntime) -> Result<(), Fail> {
    let text = Text::from_str(rt.alloc(), "Größe")?;
    let same = Text::new(String::from_str(rt.alloc(), "Größe")?);
    assert_eq!(rt; text.as_str(), "Größe");
    assert!(rt; text == same);
    let kind = RefusalKind::LiteralPast64Bits;
    assert_eq!(rt; (kind.number(), kind.text()), (6, "literal past 64 bits"));
    let foreign = RefusalKind::NotInProfile(Foreign::Identical);
    assert_eq!(rt;
        (foreign.number(), foreign.text()),
        (12, "not in this profile: ===")
    );
    assert_eq!(rt;
        ExceptionKind::ArithmeticException.name(),
        "ArithmeticException"
    );
    Ok(())
}

/// Takes two steps, and gives how many bytes the counter takes.
fn size_after_two_steps<L: Ledger>(blank: Blank) -> usize
    requires name { blank.name ≡ L.name }
    requires parts { blank.parts ≡ L.parts }
    requires some { 0 < L.parts }
{
    let mut steps = Steps::<L>::new(blank);
    steps.tick();
    steps.tick();
    size_of_val(&steps)
}

#[test]
fn steps_take_no_bytes(rt: HostRuntime) {
    assert_eq!(rt; size_after_two_steps::<Brand>(Blank::new(1)), 0);
}
