ghost use Rattle.std.specs.Prelude.{◌≡◌, ◌<◌, length, IfOk, IfSome};
ghost use Rattle.gv_classes.specs.Classes as spec;

use gv_base::{ClassId, ExceptionKind, Name, Names, OutOfMemory, Place};
use gv_classes::MemberKind::{Constructor, Field, Method};
use gv_classes::{
    BUILT_IN, Classes, Declared, GSTRING, INTEGER, LIST, LONG, MAP, Member, MemberKind, NUMBER,
    OBJECT, RANGE, STRING, THROWABLE, exception_class,
};
use sqlite_items::Items;
use std::alloc::Global;
use std::test::Fail;

/// Each built-in class, in the order of their numbers, with those above it.
const CHAINS: &str = "\
Object\n\
Number Object\n\
Integer Number Object\n\
Long Number Object\n\
Boolean Object\n\
String Object\n\
GString Object\n\
List Object\n\
Range List Object\n\
Map Object\n\
Closure Object\n\
Class Object\n\
Entry Object\n\
MetaClass Object\n\
MetaMember Object\n\
MetaMethod Object\n\
ExpandoMetaClass Object\n\
Throwable Object\n\
Exception Throwable Object\n\
Error Throwable Object\n\
AssertionError Error Throwable Object\n\
RuntimeException Exception Throwable Object\n\
NullPointerException RuntimeException Exception Throwable Object\n\
IllegalArgumentException RuntimeException Exception Throwable Object\n\
NumberFormatException IllegalArgumentException RuntimeException Exception Throwable Object\n\
IllegalStateException RuntimeException Exception Throwable Object\n\
IndexOutOfBoundsException RuntimeException Exception Throwable Object\n\
StringIndexOutOfBoundsException IndexOutOfBoundsException RuntimeException Exception Throwable Object\n\
ArithmeticException RuntimeException Exception Throwable Object\n\
NoSuchElementException RuntimeException Exception Throwable Object\n\
UnsupportedOperationException RuntimeException Exception Throwable Object\n\
ClassCastException RuntimeException Exception Throwable Object\n\
GroovyCastException ClassCastException RuntimeException Exception Throwable Object\n\
GroovyRuntimeException RuntimeException Exception Throwable Object\n\
MissingMethodException GroovyRuntimeException RuntimeException Exception Throwable Object\n\
MissingPropertyException GroovyRuntimeException RuntimeException Exception Throwable Object\n\
ReadOnlyPropertyException MissingPropertyException GroovyRuntimeException RuntimeException Exception Throwable Object";

#[test]
fn built_in_classes(rt: HostRuntime) -> Result<(), Fail> {
    let mut names = Names::new(rt.alloc());
    let classes = script(rt.alloc(), &mut names, &[])?;
    for (class, chain) in CHAINS.split('\n').enumerate() {
        assert!(rt; is_chain(&classes, &names, class, chain), "{chain}");
    }
    assert_eq!(rt; classes.len(), BUILT_IN);
    Ok(())
}

/// Whether this is the class with those above it.
fn is_chain(classes: &Classes, names: &Names, class: ClassId, chain: &str) -> bool {
    if class >= classes.len() {
        return false;
    }
    let mut above = class;
    for text in chain.split(' ') {
        let Some(found) = class_of(classes, names, text) else {
            return false;
        };
        if found != above {
            return false;
        }
        above = classes.above(found);
    }
    above == OBJECT && kinds(classes, class) == chain.split(' ').count()
}

fn class_of(classes: &Classes, names: &Names, text: &str) -> Option<ClassId>
    ensures { IfSome result (λ class. class < length classes.now) }
{
    match names.find(text) {
        Some(name) => classes.named(name),
        None => None,
    }
}

/// Of how many classes an instance is one.
fn kinds(classes: &Classes, class: ClassId) -> usize
    requires { class < length classes.now }
{
    let mut count = 0;
    for other in 0..classes.len() {
        if classes.is_kind(class, other) {
            count += 1;
        }
    }
    count
}

/// The built-in classes, and behind them those of these names, superclasses and members.
fn script(
    alloc: Global,
    names: &mut Names,
    rows: &[(Name, Name, Name, MemberKind)],
) -> Result<Classes, OutOfMemory> {
    let mut classes = Classes::new(alloc, names)?;
    for (name, above, member, kind) in rows {
        classes.add(declared(alloc, *name, *above, *member, *kind)?)?;
    }
    Ok(classes)
}

fn declared(
    alloc: Global,
    name: Name,
    above: Name,
    member: Name,
    kind: MemberKind,
) -> Result<Declared, OutOfMemory>
    ensures { IfOk result (λ class. spec.AreRestsTyped class) }
{
    let place = Place {
        file: 0,
        line: 1,
        column: 1,
    };
    let mut members = Items::new(alloc);
    members.push(Member {
        name: member,
        types: Items::new(alloc),
        kind,
        flags: 0,
        place,
    })?;
    Ok(Declared {
        name,
        above,
        intercepts: false,
        place,
        members,
    })
}

/// The first class of a name, or Object.
fn named(classes: &Classes, name: Name) -> ClassId
    ensures { result < length classes.now }
{
    let _built_in = classes.len();
    match classes.named(name) {
        Some(class) => class,
        None => OBJECT,
    }
}

#[test]
fn arguments_that_fit(rt: HostRuntime) -> Result<(), Fail> {
    let mut names = Names::new(rt.alloc());
    let classes = script(rt.alloc(), &mut names, &[])?;
    for (argument, parameter, fits) in [
        (INTEGER, LONG, true),
        (LONG, INTEGER, false),
        (INTEGER, NUMBER, true),
        (NUMBER, INTEGER, false),
        (NUMBER, LONG, false),
        (GSTRING, STRING, true),
        (STRING, GSTRING, false),
        (GSTRING, LONG, false),
        (INTEGER, STRING, false),
        (RANGE, LIST, true),
        (LIST, RANGE, false),
        (MAP, MAP, true),
        (THROWABLE, OBJECT, true),
        (OBJECT, THROWABLE, false),
    ] {
        let found = argument < classes.len() && classes.fits(argument, parameter);
        assert_eq!(rt; found, fits, "{argument} {parameter}");
    }
    Ok(())
}

/// 52 comes before its superclass 51, whose own superclass isn't there. 60 and 61 stand above each
/// other, and 62 below both. 70 to 73 stand above one another. There are two classes 80.
const ROWS: [(Name, Name, Name, MemberKind); 11] = [
    (52, 51, 1, Field),
    (51, 50, 1, Field),
    (60, 61, 2, Method),
    (61, 60, 1, Field),
    (62, 61, 1, Field),
    (70, 49, 3, Method),
    (71, 70, 4, Field),
    (72, 71, 5, Constructor),
    (73, 72, 6, Method),
    (80, 51, 1, Field),
    (80, 52, 1, Field),
];

#[test]
fn superclasses(rt: HostRuntime) -> Result<(), Fail> {
    let mut names = Names::new(rt.alloc());
    let classes = script(rt.alloc(), &mut names, &ROWS)?;
    for (name, class, above) in [
        (52, 37, 38),
        (51, 38, OBJECT),
        (60, 39, OBJECT),
        (61, 40, OBJECT),
        (62, 41, OBJECT),
        (73, 45, 44),
        (80, 46, 38),
        (81, OBJECT, OBJECT),
    ] {
        assert_eq!(rt; named(&classes, name), class);
        assert_eq!(rt; classes.above(named(&classes, name)), above, "{name}");
    }
    Ok(())
}

#[test]
fn kinds_of_instances(rt: HostRuntime) -> Result<(), Fail> {
    let mut names = Names::new(rt.alloc());
    let classes = script(rt.alloc(), &mut names, &ROWS)?;
    for (a, b, is_kind) in [
        (52, 51, true),
        (51, 52, false),
        (60, 60, true),
        (60, 61, false),
        (62, 60, false),
        (62, 49, true),
        (73, 70, true),
        (70, 73, false),
    ] {
        let found = classes.is_kind(named(&classes, a), named(&classes, b));
        assert_eq!(rt; found, is_kind, "{a} {b}");
    }
    Ok(())
}

#[test]
fn inherited_methods(rt: HostRuntime) -> Result<(), Fail> {
    let mut names = Names::new(rt.alloc());
    let classes = script(rt.alloc(), &mut names, &ROWS)?;
    for (name, member, declares) in [
        (60, 2, true),
        (61, 2, false),
        (62, 2, false),
        (70, 3, true),
        (73, 3, true),
        (71, 4, false),
        (72, 5, false),
        (73, 6, true),
        (72, 6, false),
        (73, 7, false),
    ] {
        let found = classes.declares(named(&classes, name), member);
        assert_eq!(rt; found, declares, "{name} {member}");
    }
    Ok(())
}

// Each of 2,000 classes stands above the one before it.
#[test]
fn a_long_chain(rt: HostRuntime) -> Result<(), Fail> {
    let mut names = Names::new(rt.alloc());
    let mut classes = script(rt.alloc(), &mut names, &[(3000, 49, 60, Method)])?;
    for name in 1000..3000 {
        classes.add(declared(rt.alloc(), name, name + 1, 61, Method)?)?;
    }
    let first = named(&classes, 1000);
    assert_eq!(rt; first, 38);
    assert!(rt; classes.is_kind(first, named(&classes, 3000)));
    assert!(rt; classes.declares(first, 60));
    Ok(())
}

#[test]
fn exception_classes(rt: HostRuntime) {
    for (kind, class) in [
        (ExceptionKind::Throwable, 17),
        (ExceptionKind::AssertionError, 20),
        (ExceptionKind::GroovyCastException, 32),
        (ExceptionKind::ReadOnlyPropertyException, 36),
    ] {
        assert_eq!(rt; exception_class(kind), class);
    }
}
