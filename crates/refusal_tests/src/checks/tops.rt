use super::refused;
use std::test::Fail;

#[test]
fn imports_outside_the_profile(rt: HostRuntime) -> Result<(), Fail> {
    let table = [
        ("import java.util.List", (22, 1, 1)),
        ("import groovy.transform.ToString", (0, 0, 0)),
        ("import groovy.transform.*", (0, 0, 0)),
        ("import groovy.lang.*", (0, 0, 0)),
        ("import groovy.lang.ToString", (22, 1, 1)),
        ("import groovy.transform.Lazy", (22, 1, 1)),
        ("import groovy.lang.Delegate", (0, 0, 0)),
        ("import groovy.*", (22, 1, 1)),
        ("import groovy.transform.Canonical", (22, 1, 1)),
        ("println 1\nimport java.util.*", (22, 2, 1)),
        ("break\nimport java.util.List", (28, 1, 1)),
        ("import java.util.List\nbreak", (22, 1, 1)),
    ];
    for (script, wanted) in table {
        assert_eq!(rt; refused(rt.alloc(), script)?, wanted, "{script}");
    }
    Ok(())
}

#[test]
fn property_overrides(rt: HostRuntime) -> Result<(), Fail> {
    let table = [
        ("def getProperty(n) { 1 }", (24, 1, 5)),
        ("class A { def setProperty(n, v) { 1 } }", (24, 1, 15)),
        ("class A { def getProperty() { 1 } }", (24, 1, 15)),
        ("class A { static def getProperty(n) { 1 } }", (24, 1, 22)),
        ("class A { def property() { 1 } }", (0, 0, 0)),
        ("class A { def getProperty(a, a) { 1 } }", (24, 1, 15)),
    ];
    for (script, wanted) in table {
        assert_eq!(rt; refused(rt.alloc(), script)?, wanted, "{script}");
    }
    Ok(())
}

#[test]
fn unknown_annotations(rt: HostRuntime) -> Result<(), Fail> {
    let table = [
        ("@Foo class A { }", (21, 1, 1)),
        ("@ToString class A { }", (21, 1, 1)),
        (
            "import groovy.transform.ToString\n@ToString class A { }",
            (0, 0, 0),
        ),
        (
            "import groovy.transform.*\n@EqualsAndHashCode class A { }",
            (0, 0, 0),
        ),
        (
            "import groovy.transform.ToString\n@TupleConstructor class A { }",
            (21, 2, 1),
        ),
        ("@groovy.transform.ToString class A { }", (0, 0, 0)),
        ("@groovy.lang.ToString class A { }", (21, 1, 1)),
        ("class A { @ToString def m() { 1 } }", (21, 1, 11)),
        ("@Field def x = 1", (21, 1, 1)),
        ("import groovy.transform.Field\n@Field def x = 1", (0, 0, 0)),
    ];
    for (script, wanted) in table {
        assert_eq!(rt; refused(rt.alloc(), script)?, wanted, "{script}");
    }
    Ok(())
}

#[test]
fn annotations_out_of_place(rt: HostRuntime) -> Result<(), Fail> {
    let table = [
        ("@Lazy class A { }", (27, 1, 1)),
        ("@Singleton class A { }", (0, 0, 0)),
        ("class A { @Singleton def p }", (27, 1, 11)),
        ("class A { @Lazy def p = 1 }", (0, 0, 0)),
        ("class A { @Lazy static def p = 1 }", (27, 1, 11)),
        ("class A { @Delegate private List p }", (27, 1, 11)),
        ("class A { @Delegate def m() { 1 } }", (27, 1, 11)),
        ("@Lazy def x = 1", (27, 1, 1)),
        (
            "import groovy.transform.Field\nclass A { @Field def x }",
            (27, 2, 11),
        ),
        ("@groovy.transform.Field @Lazy def x = 1", (27, 1, 25)),
    ];
    for (script, wanted) in table {
        assert_eq!(rt; refused(rt.alloc(), script)?, wanted, "{script}");
    }
    Ok(())
}
