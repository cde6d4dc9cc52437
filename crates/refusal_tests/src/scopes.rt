ghost use Rattle.std.specs.Prelude.{◌≡◌, true, IfOk};
ghost use Rattle.gv_classes.specs.Classes as spec;

use gv_base::{Name, Names, OutOfMemory, Place};
use gv_classes::{Classes, Declared, Member, MemberKind, OBJECT, STATIC};
use gv_events::{Event, Scope};
use gv_scopes::{Known, Meaning, Resolved, resolved_of, shared};
use gv_tree::Ident;
use sqlite_items::Items;
use std::alloc::Global;

/// Names past those of the built-in classes; the name 0 is Object's.
const KNOWN: Known = Known {
    it: 100,
    script: 101,
    owner: 102,
    delegate: 103,
    resolve_strategy: 104,
};

const CLASS: Name = 105;

const A: Name = 106;

const B: Name = 107;

const AT: Place = Place {
    file: 0,
    line: 1,
    column: 1,
};

fn ident(name: Name) -> Ident {
    Ident { place: AT, name }
}

fn field(alloc: Global, name: Name, flags: u8) -> Result<Member, OutOfMemory>
    ensures { IfOk result (λ m. spec.has_rest_type m ≡ true) }
{
    let mut types = Items::new(alloc);
    types.push(0)?;
    Ok(Member {
        name,
        types,
        kind: MemberKind::Field,
        flags,
        place: AT,
    })
}

/// A class with a static field A and a field B.
fn class(alloc: Global) -> Result<Declared, OutOfMemory>
    ensures { IfOk result (λ d. spec.AreRestsTyped d) }
{
    let mut members = Items::new(alloc);
    members.push(field(alloc, A, STATIC)?)?;
    members.push(field(alloc, B, 0)?)?;
    Ok(Declared {
        name: CLASS,
        above: 0,
        intercepts: false,
        place: AT,
        members,
    })
}

fn resolved(alloc: Global, events: &[Event]) -> Result<Resolved, OutOfMemory> {
    let mut names = Names::new(alloc);
    let mut classes = Classes::new(alloc, &mut names)?;
    classes.add(class(alloc)?)?;
    resolved_of(alloc, &KNOWN, &classes, events)
}

#[test]
fn closures_capture_variables(rt: HostRuntime) -> Result<(), OutOfMemory> {
    let events = [
        Event::Open(Scope::Script),
        Event::Use(ident(A)),
        Event::Declare(ident(A)),
        Event::Open(Scope::Closure),
        Event::Implicit(KNOWN.it),
        Event::Open(Scope::Closure),
        Event::Parameter(ident(B)),
        Event::Use(ident(A)),
        Event::Use(ident(B)),
        Event::Use(ident(KNOWN.it)),
        Event::Close,
        Event::Close,
        Event::Use(ident(B)),
        Event::Use(ident(KNOWN.it)),
        Event::Close,
    ];
    let found = resolved(rt.alloc(), &events)?;
    let expected = [
        Meaning::Property,
        Meaning::Variable(0),
        Meaning::Variable(2),
        Meaning::Variable(1),
        Meaning::Property,
        Meaning::Property,
    ];
    assert_eq!(rt; found.uses.as_slice(), expected.as_slice());
    assert!(rt; shared(&found, 0));
    assert!(rt; shared(&found, 1));
    assert!(rt; !shared(&found, 2));
    assert_eq!(rt; found.bodies.len(), 3);
    if let [script, outer, inner] = found.bodies.as_slice() {
        assert_eq!(rt; script.captured.len(), 0);
        assert_eq!(rt; outer.captured.get(0), Some(0));
        assert_eq!(rt; outer.captured.len(), 1);
        assert_eq!(rt; outer.parameters.as_slice(), [1].as_slice());
        assert_eq!(rt; inner.captured.get(0), Some(0));
        assert_eq!(rt; inner.captured.get(1), Some(1));
        assert_eq!(rt; inner.parameters.as_slice(), [2].as_slice());
    }
    Ok(())
}

#[test]
fn names_that_are_no_variables(rt: HostRuntime) -> Result<(), OutOfMemory> {
    let events = [
        Event::OpenClass(ident(CLASS)),
        Event::Open(Scope::Method),
        Event::Use(ident(A)),
        Event::Use(ident(B)),
        Event::UseOfThis(ident(B)),
        Event::Use(ident(CLASS)),
        Event::Use(ident(KNOWN.owner)),
        Event::Open(Scope::Closure),
        Event::Use(ident(B)),
        Event::UseOfThis(ident(B)),
        Event::Use(ident(KNOWN.owner)),
        Event::Use(ident(KNOWN.delegate)),
        Event::Use(ident(KNOWN.resolve_strategy)),
        Event::Use(ident(0)),
        Event::Close,
        Event::Close,
        Event::Open(Scope::StaticMethod),
        Event::Use(ident(A)),
        Event::Use(ident(B)),
        Event::Close,
        Event::CloseClass,
        Event::Open(Scope::Method),
        Event::Use(ident(B)),
        Event::UseOfThis(ident(A)),
        Event::Close,
    ];
    let found = resolved(rt.alloc(), &events)?;
    let class = match found.uses.get(3) {
        Some(Meaning::Class(class)) => *class,
        _ => OBJECT,
    };
    let expected = [
        Meaning::Field(0),
        Meaning::Field(1),
        Meaning::Field(1),
        Meaning::Class(class),
        Meaning::Property,
        Meaning::Property,
        Meaning::Property,
        Meaning::Owner,
        Meaning::Delegate,
        Meaning::ResolveStrategy,
        Meaning::Class(OBJECT),
        Meaning::Field(0),
        Meaning::Property,
        Meaning::Property,
        Meaning::Property,
    ];
    assert!(rt; class != OBJECT);
    assert_eq!(rt; found.uses.as_slice(), expected.as_slice());
    Ok(())
}

#[test]
fn names_are_held_up_to_the_end_of_their_scope(rt: HostRuntime) -> Result<(), OutOfMemory> {
    let events = [
        Event::Open(Scope::Method),
        Event::Parameter(ident(A)),
        Event::Open(Scope::Loop),
        Event::Declare(ident(B)),
        Event::Open(Scope::Block),
        Event::Use(ident(B)),
        Event::Use(ident(A)),
        Event::Close,
        Event::Close,
        Event::Use(ident(B)),
        Event::Declare(ident(B)),
        Event::Use(ident(B)),
        Event::Close,
        Event::Open(Scope::StaticField),
        Event::Use(ident(A)),
        Event::Close,
    ];
    let found = resolved(rt.alloc(), &events)?;
    let expected = [
        Meaning::Variable(1),
        Meaning::Variable(0),
        Meaning::Property,
        Meaning::Variable(2),
        Meaning::Property,
    ];
    assert_eq!(rt; found.uses.as_slice(), expected.as_slice());
    assert_eq!(rt; found.captured.len(), 0);
    Ok(())
}
