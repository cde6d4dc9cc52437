use super::{End, ended};
use std::alloc::Global;
use std::test::Fail;

/// A refusal's kind, file, line and column; zeros where there is none, and kind 10 where a script has no tree.
type Row = (u8, u8, u32, u32);

const NONE: Row = (0, 0, 0, 0);

fn refused(alloc: Global, first: &str, second: &str) -> Result<Row, Fail> {
    match ended(alloc, first, second)? {
        End::Canonical(_) => Ok(NONE),
        End::Refused(refusal) => Ok((
            refusal.kind.number(),
            refusal.place.file,
            refusal.place.line,
            refusal.place.column,
        )),
        End::NoTree => Ok((10, 0, 0, 0)),
    }
}

#[test]
fn statements_of_later_files(rt: HostRuntime) -> Result<(), Fail> {
    let table = [
        ("println 1", "", NONE),
        ("println 1", "class A { }\ndef f() { 1 }", NONE),
        ("println 1", "  println 2", (23, 1, 1, 3)),
        ("", "class A { }\na.b[1]++", (23, 1, 2, 1)),
        ("", "def f() { 1 }\nfinal int x = 1", (23, 1, 2, 1)),
        ("", "-1 + 2; 3", (23, 1, 1, 1)),
        ("", "@groovy.transform.Field int x = 1", NONE),
        ("", "break", (23, 1, 1, 1)),
        ("break", "1", (28, 0, 1, 1)),
    ];
    for (first, second, wanted) in table {
        assert_eq!(rt; refused(rt.alloc(), first, second)?, wanted, "{second}");
    }
    Ok(())
}

#[test]
fn classes_and_methods_of_several_files(rt: HostRuntime) -> Result<(), Fail> {
    let table = [
        ("new A()", "class A { }", NONE),
        ("class A { }", "class A { }", (20, 1, 1, 7)),
        ("class A { B b }", "class B extends A { }", NONE),
        (
            "class A extends B { }",
            "class B extends A { }",
            (25, 0, 1, 7),
        ),
        ("def f() { 1 }", "def f(a) { 2 }", NONE),
        ("def f() { 1 }", "def f() { 2 }", (26, 1, 1, 5)),
        ("class C { B b }", "class A { }", (21, 0, 1, 11)),
    ];
    for (first, second, wanted) in table {
        assert_eq!(rt; refused(rt.alloc(), first, second)?, wanted, "{second}");
    }
    Ok(())
}

#[test]
fn accessors_that_would_override(rt: HostRuntime) -> Result<(), Fail> {
    let table = [
        ("class A { def property }", (24, 0, 1, 15)),
        ("class A { private def property }", NONE),
        ("class A { def property() { 1 } }", NONE),
        ("@groovy.transform.Field def property = 1", (24, 0, 1, 29)),
        (
            "class A { final def property = 1\ndef getProperty() { 2 } }",
            (24, 0, 2, 5),
        ),
        (
            "class A { def property\ndef getProperty() { 2 } }",
            (24, 0, 1, 15),
        ),
        ("class A { def x\ndef getX() { 2 } }", NONE),
    ];
    for (script, wanted) in table {
        assert_eq!(rt; refused(rt.alloc(), script, "")?, wanted, "{script}");
    }
    Ok(())
}
