use super::refused;
use std::test::Fail;

#[test]
fn names_declared_twice(rt: HostRuntime) -> Result<(), Fail> {
    let table = [
        ("def x = 1; def x = 2", (20, 1, 16)),
        ("def x = 1\ndef f = { -> def x = 2 }", (20, 2, 18)),
        ("def x = { def x = 1 }", (0, 0, 0)),
        ("def f = { def y = 1 }; def y = 2", (0, 0, 0)),
        ("def x = 1\ndef m() { def x = 2 }", (0, 0, 0)),
        ("def f(a) { def a = 1 }", (20, 1, 16)),
        ("def f(a, a) { }", (20, 1, 10)),
        ("def (a, a) = [1, 2]", (20, 1, 9)),
        ("for (i in 1..2) { def i = 3 }", (20, 1, 23)),
        ("for (int i = 0; i < 3; i++) { def i = 1 }", (20, 1, 35)),
        ("try { } catch (e) { def e = 1 }", (20, 1, 25)),
        ("class A { def m(x) { def x = 1 } }", (20, 1, 26)),
        ("if (true) { def a = 1 } else { def a = 2 }", (0, 0, 0)),
        ("while (true) { def a = 1; break }\ndef a = 2", (0, 0, 0)),
        (
            "switch (1) { case 1: def a = 1; break\ncase 2: def a = 2 }",
            (0, 0, 0),
        ),
    ];
    for (script, wanted) in table {
        assert_eq!(rt; refused(rt.alloc(), script)?, wanted, "{script}");
    }
    Ok(())
}

#[test]
fn parameters_of_closures(rt: HostRuntime) -> Result<(), Fail> {
    let table = [
        ("def f = { def it = 1 }", (20, 1, 15)),
        ("def f = { -> def it = 1 }", (0, 0, 0)),
        ("def f = { x -> [1].each { x -> 1 } }", (20, 1, 27)),
        ("def f = { [1].each { it -> 1 } }", (20, 1, 22)),
        ("def f = { [1].each { 1 } }", (0, 0, 0)),
    ];
    for (script, wanted) in table {
        assert_eq!(rt; refused(rt.alloc(), script)?, wanted, "{script}");
    }
    Ok(())
}

#[test]
fn nothing_to_leave(rt: HostRuntime) -> Result<(), Fail> {
    let table = [
        ("break", (28, 1, 1)),
        ("continue", (28, 1, 1)),
        ("while (true) { [1].each { break } }", (28, 1, 27)),
        ("switch (1) { case 1: continue }", (28, 1, 22)),
        ("switch (1) { case 1: break }", (0, 0, 0)),
        ("def f() { break }", (28, 1, 11)),
        (
            "while (true) { switch (1) { default: continue } }",
            (0, 0, 0),
        ),
        ("while (true) { if (1) { break } }", (0, 0, 0)),
        ("if (true) { break }", (28, 1, 13)),
        ("for (i in 1..2) break\nbreak", (28, 2, 1)),
    ];
    for (script, wanted) in table {
        assert_eq!(rt; refused(rt.alloc(), script)?, wanted, "{script}");
    }
    Ok(())
}

#[test]
fn this_and_super(rt: HostRuntime) -> Result<(), Fail> {
    let table = [
        ("this", (0, 0, 0)),
        ("super.m()", (29, 1, 1)),
        ("def f() { super.m() }", (0, 0, 0)),
        ("class A { static def m() { this } }", (29, 1, 28)),
        ("class A { static def m() { super.m() } }", (29, 1, 28)),
        ("class A { def m() { this } }", (0, 0, 0)),
        ("class A { def m() { super.m() } }", (0, 0, 0)),
        ("class A { def m() { [1].each { super.m() } } }", (0, 0, 0)),
        ("class A { def m() { super } }", (29, 1, 21)),
        ("class A { def m() { super.x } }", (29, 1, 21)),
        ("class A { def m() { this(1) } }", (29, 1, 21)),
        ("class A { def x = super.m() }", (29, 1, 19)),
        ("class A { A() { super() } }", (0, 0, 0)),
        ("class A { A() { this(1) } }", (0, 0, 0)),
        ("class A { A() { 1; this(1) } }", (29, 1, 20)),
        ("class A { A() { super.m() } }", (29, 1, 17)),
    ];
    for (script, wanted) in table {
        assert_eq!(rt; refused(rt.alloc(), script)?, wanted, "{script}");
    }
    Ok(())
}
