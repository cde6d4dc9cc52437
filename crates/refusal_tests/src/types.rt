ghost use Rattle.gv_classes.specs.Classes.{AreRestsTyped};

use gv_base::{Name, Names, OutOfMemory, Place, Refusal, RefusalKind};
use gv_classes::{Classes, Declared};
use gv_events::Event;
use gv_tree::{ClassTree, Ident, Modifiers, Script, Top};
use gv_types::first_of_types;
use sqlite_items::Items;
use std::alloc::Global;
use std::test::Fail;

// What a class extends in column 10, what it implements in column 20, a written type in column 30, and the column of the first
// refusal. Beside the built-in classes there are the script's own, Script, and Account.
const CASES: [(&str, &str, &str, Option<u32>); 22] = [
    ("", "", "Object", None),
    ("", "", "Integer", None),
    ("", "", "MetaMethod", None),
    ("", "", "ClassCastException", None),
    ("", "", "Script", None),
    ("", "", "Account", None),
    ("", "", "Missing", Some(30)),
    ("", "", "GroovyInterceptable", Some(30)),
    ("Object", "", "Object", None),
    ("Throwable", "", "Object", None),
    ("ReadOnlyPropertyException", "", "Object", None),
    ("Account", "", "Object", None),
    ("Script", "", "Object", Some(10)),
    ("Number", "", "Object", Some(10)),
    ("Integer", "", "Object", Some(10)),
    ("ExpandoMetaClass", "", "Object", Some(10)),
    ("Missing", "", "Object", Some(10)),
    ("", "GroovyInterceptable", "Object", None),
    ("", "Account", "Object", Some(20)),
    ("Account", "Missing", "Missing", Some(20)),
    ("Object", "GroovyInterceptable", "Missing", Some(30)),
    ("GroovyInterceptable", "Object", "Missing", Some(10)),
];

fn at(column: u32) -> Place {
    Place {
        file: 0,
        line: 1,
        column,
    }
}

fn refused(column: u32) -> Refusal {
    Refusal {
        kind: RefusalKind::UnknownClass,
        place: at(column),
    }
}

fn declared(alloc: Global, name: Name) -> Declared
    ensures { AreRestsTyped result }
{
    Declared {
        name,
        above: name,
        intercepts: false,
        place: at(1),
        members: Items::new(alloc),
    }
}

/// A name where it is written, if one is.
fn written(names: &mut Names, text: &str, column: u32) -> Result<Option<Ident>, OutOfMemory> {
    if text.is_empty() {
        return Ok(None);
    }
    Ok(Some(Ident {
        place: at(column),
        name: names.intern(text)?,
    }))
}

/// A class alone.
fn script(
    alloc: Global,
    superclass: Option<Ident>,
    interface: Option<Ident>,
) -> Result<Script, OutOfMemory> {
    let mut tops = Items::new(alloc);
    tops.push(Top::Class(ClassTree {
        annotations: Items::new(alloc),
        modifiers: Modifiers {
            is_public: false,
            is_private: false,
            is_protected: false,
            is_static: false,
            is_final: false,
        },
        ident: Ident {
            place: at(2),
            name: 0,
        },
        superclass,
        interface,
        members: Items::new(alloc),
    }))?;
    Ok(Script { tops })
}

fn refusal_of(
    alloc: Global,
    (superclass, interface, class): (&str, &str, &str),
    first: Option<Refusal>,
) -> Result<Option<Refusal>, OutOfMemory> {
    let mut names = Names::new(alloc);
    let mut classes = Classes::new(alloc, &mut names)?;
    for text in ["Script", "Account"] {
        classes.add(declared(alloc, names.intern(text)?))?;
    }
    let interceptable = names.intern("GroovyInterceptable")?;
    let superclass = written(&mut names, superclass, 10)?;
    let interface = written(&mut names, interface, 20)?;
    let class = Ident {
        place: at(30),
        name: names.intern(class)?,
    };
    Ok(first_of_types(
        &classes,
        interceptable,
        &script(alloc, superclass, interface)?,
        &[Event::Close, Event::Class(class), Event::This(at(40))],
        first,
    ))
}

#[test]
fn names_of_classes_are_known(rt: HostRuntime) -> Result<(), Fail> {
    for (superclass, interface, class, column) in CASES {
        let told = refusal_of(rt.alloc(), (superclass, interface, class), None)?;
        let wanted = match column {
            Some(column) => Some(refused(column)),
            None => None,
        };
        assert_eq!(rt; told, wanted, "{superclass} {interface} {class}");
    }
    Ok(())
}

#[test]
fn the_first_refusal_stays(rt: HostRuntime) -> Result<(), Fail> {
    for (first, wanted) in [(5, 5), (15, 15), (25, 20)] {
        let told = refusal_of(rt.alloc(), ("", "Missing", "Missing"), Some(refused(first)))?;
        assert_eq!(rt; told, Some(refused(wanted)));
    }
    Ok(())
}
