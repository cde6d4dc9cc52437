use super::refused;
use std::test::Fail;

#[test]
fn classes_and_members_declared_twice(rt: HostRuntime) -> Result<(), Fail> {
    let table = [
        ("class A { def a; def a }", (20, 1, 22)),
        ("class A { def a = 1, a }", (20, 1, 22)),
        ("class A { def a }; class B { def a }", (0, 0, 0)),
        ("class A { def a; def a() { 1 } }", (0, 0, 0)),
        (
            "@groovy.transform.Field def x\n@groovy.transform.Field def x",
            (20, 2, 29),
        ),
        ("class A { }\nclass A { }", (20, 2, 7)),
        ("class String { }", (20, 1, 7)),
        ("class Script { }", (20, 1, 7)),
        ("class ExpandoMetaClass { }", (20, 1, 7)),
        ("class GroovyInterceptable { }", (0, 0, 0)),
        ("def m() { 1 }\ndef m() { 2 }", (26, 2, 5)),
        ("def m(x) { 1 }\ndef m(Object y) { 2 }", (26, 2, 5)),
        ("def m(int x) { 1 }\ndef m(Integer y) { 2 }", (26, 2, 5)),
        ("def m(int x) { 1 }\ndef m(long y) { 2 }", (0, 0, 0)),
        ("def m(a, b = 1) { 1 }\ndef m(a) { 2 }", (26, 2, 5)),
        ("def m(a) { 2 }\ndef m(a, b = 1) { 1 }", (26, 2, 5)),
        ("def m(a, b = 1) { 1 }\ndef m() { 2 }", (0, 0, 0)),
        ("class A { A() { }; A() { } }", (26, 1, 20)),
        (
            "class A { def m() { 1 }; static def m() { 2 } }",
            (26, 1, 37),
        ),
        ("def m(Object... x) { 1 }\ndef m(Object x) { 2 }", (0, 0, 0)),
        (
            "def m(String... x) { 1 }\ndef m(String... y) { 2 }",
            (26, 2, 5),
        ),
        (
            "class A { def m() { 1 } }\nclass B extends A { def m() { 2 } }",
            (0, 0, 0),
        ),
        ("class A { def x; def getX() { 1 } }", (0, 0, 0)),
        ("break\ndef m() { 1 }\ndef m() { 2 }", (28, 1, 1)),
    ];
    for (script, wanted) in table {
        assert_eq!(rt; refused(rt.alloc(), script)?, wanted, "{script}");
    }
    Ok(())
}

#[test]
fn unknown_classes(rt: HostRuntime) -> Result<(), Fail> {
    let table = [
        ("def x = new Foo()", (21, 1, 13)),
        ("Foo x = 1", (21, 1, 1)),
        ("def f(Foo a) { }", (21, 1, 7)),
        ("Foo f() { }", (21, 1, 1)),
        ("try { } catch (Foo e) { }", (21, 1, 16)),
        ("1 instanceof Foo", (21, 1, 14)),
        ("1 as Foo", (21, 1, 6)),
        ("class A { Foo a }", (21, 1, 11)),
        ("class A { def m() { Foo x = 1 } }", (21, 1, 21)),
        ("for (Foo i in [1]) { }", (21, 1, 6)),
        ("[1].each { Foo x -> 1 }", (21, 1, 12)),
        ("def x = 1 instanceof GroovyInterceptable", (21, 1, 22)),
        ("class A extends Foo { }", (21, 1, 17)),
        ("class A extends String { }", (21, 1, 17)),
        ("class A extends Script { }", (21, 1, 17)),
        ("class A extends Exception { }", (0, 0, 0)),
        ("class A extends Object { }", (0, 0, 0)),
        ("class A extends B { }\nclass B { }", (0, 0, 0)),
        ("class A implements Foo { }", (21, 1, 20)),
        ("class A implements GroovyInterceptable { }", (0, 0, 0)),
        ("Script x = null", (0, 0, 0)),
        ("ExpandoMetaClass x", (0, 0, 0)),
        ("def x = new A()\nclass A { }", (0, 0, 0)),
        ("int x = 1; long y = 2; boolean b = true", (0, 0, 0)),
        ("void f() { }", (0, 0, 0)),
    ];
    for (script, wanted) in table {
        assert_eq!(rt; refused(rt.alloc(), script)?, wanted, "{script}");
    }
    Ok(())
}

#[test]
fn superclass_circles(rt: HostRuntime) -> Result<(), Fail> {
    let table = [
        ("class A extends A { }", (25, 1, 7)),
        ("class A extends B { }\nclass B extends A { }", (25, 1, 7)),
        (
            "class C extends A { }\nclass A extends B { }\nclass B extends A { }",
            (25, 2, 7),
        ),
        (
            "class B extends C { }\nclass C extends D { }\nclass D extends B { }",
            (25, 1, 7),
        ),
        (
            "class A extends B { }\nclass B extends C { }\nclass C { }",
            (0, 0, 0),
        ),
        (
            "class X { }\nclass B extends B { }\nclass A extends A { }",
            (25, 2, 7),
        ),
        (
            "class A extends Exception { }\nclass B extends A { }",
            (0, 0, 0),
        ),
        (
            "class A extends B { }\nclass B { }\nclass B extends A { }",
            (20, 3, 7),
        ),
    ];
    for (script, wanted) in table {
        assert_eq!(rt; refused(rt.alloc(), script)?, wanted, "{script}");
    }
    Ok(())
}
