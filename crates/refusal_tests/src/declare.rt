use gv_base::{Name, Names, OutOfMemory, Place};
use gv_classes::{BUILT_IN, Classes, Declared, Member};
use gv_declare::{Known, declare_all, declare_class, declare_members};
use gv_events::Words;
use gv_tree::{
    Annotation, Answer, Atom, ClassTree, Constructor, Decl, Expr, Field, Ident,
    Member as MemberTree, Method, Modifiers, Param, Script, Top, TypeTree, Var, VarType,
};
use sqlite_items::{Boxed, Items};
use std::alloc::Global;
use std::test::Fail;

const KNOWN: Known = Known {
    object: 1,
    integer: 2,
    long: 3,
    boolean: 4,
    script: 5,
    interceptable: 6,
};

const WORDS: Words = Words {
    it: 10,
    field: 11,
    groovy: 12,
    transform: 13,
};

// A class of the script, and what declares.
const A: Name = 20;

const M: Name = 30;

const F: Name = 40;

const PLACE: Place = Place {
    file: 0,
    line: 2,
    column: 7,
};

// No word stands before a declaration.
const PLAIN: Modifiers = Modifiers {
    is_public: false,
    is_private: false,
    is_protected: false,
    is_static: false,
    is_final: false,
};

/// A parameter: its type, whether it is a rest parameter, and whether it has a default.
type Row = (Option<VarType>, bool, bool);

const INT: Option<VarType> = Some(VarType::Typed(TypeTree::Int(PLACE)));

const LONG: Option<VarType> = Some(VarType::Typed(TypeTree::Long(PLACE)));

const BOOLEAN: Option<VarType> = Some(VarType::Typed(TypeTree::Boolean(PLACE)));

const CLASS: Option<VarType> = Some(VarType::Typed(TypeTree::Class(IDENT)));

const IDENT: Ident = Ident {
    place: PLACE,
    name: A,
};

// The words before a method, its parameters, and the members that it declares: types and flags of each.
const METHODS: [(Modifiers, &[Row], &str); 6] = [
    (PLAIN, &[], "[] 0;"),
    (
        Modifiers {
            is_static: true,
            is_final: true,
            ..PLAIN
        },
        &[
            (INT, false, false),
            (None, false, true),
            (LONG, false, true),
            (CLASS, true, false),
        ],
        "[2, 1, 3, 20] 19;[2, 1, 20] 19;[2, 20] 19;",
    ),
    (
        Modifiers {
            is_private: true,
            ..PLAIN
        },
        &[(BOOLEAN, false, true)],
        "[4] 4;[] 4;",
    ),
    (
        Modifiers {
            is_protected: true,
            ..PLAIN
        },
        &[(Some(VarType::Def), false, false)],
        "[1] 0;",
    ),
    (PLAIN, &[(CLASS, true, true)], "[20] 16;[] 0;"),
    (
        Modifiers {
            is_public: true,
            ..PLAIN
        },
        &[(INT, false, true), (LONG, false, true)],
        "[2, 3] 0;[2] 0;[] 0;",
    ),
];

// The words before a declaration in a class, and the flags of its fields.
const FIELDS: [(Modifiers, u8); 8] = [
    (PLAIN, 8),
    (
        Modifiers {
            is_public: true,
            ..PLAIN
        },
        0,
    ),
    (
        Modifiers {
            is_private: true,
            ..PLAIN
        },
        4,
    ),
    (
        Modifiers {
            is_protected: true,
            ..PLAIN
        },
        0,
    ),
    (
        Modifiers {
            is_static: true,
            ..PLAIN
        },
        9,
    ),
    (
        Modifiers {
            is_final: true,
            ..PLAIN
        },
        10,
    ),
    (
        Modifiers {
            is_static: true,
            is_final: true,
            is_private: true,
            ..PLAIN
        },
        7,
    ),
    (
        Modifiers {
            is_static: true,
            is_public: true,
            ..PLAIN
        },
        1,
    ),
];

// What stands behind `extends` and `implements`, the superclass, and whether it is GroovyInterceptable.
const CLASSES: [(Option<Name>, Option<Name>, Name, bool); 4] = [
    (None, None, 1, false),
    (Some(A), None, A, false),
    (Some(A), Some(6), A, true),
    (None, Some(A), 1, false),
];

fn ident(name: Name) -> Ident {
    Ident { place: PLACE, name }
}

fn maybe_ident(name: Option<Name>) -> Option<Ident> {
    match name {
        Some(name) => Some(ident(name)),
        None => None,
    }
}

fn params(alloc: Global, rows: &[Row]) -> Result<Items<Param>, OutOfMemory> {
    let mut params = Items::new(alloc);
    for (written, is_rest, has_default) in rows {
        let initial = if *has_default {
            Some(Boxed::new(alloc, Expr::Atom(PLACE, Atom::Null))?)
        } else {
            None
        };
        params.push(Param {
            ident: ident(0),
            is_final: false,
            written: *written,
            is_rest: *is_rest,
            initial,
        })?;
    }
    Ok(params)
}

fn method(alloc: Global, modifiers: Modifiers, rows: &[Row]) -> Result<Method, OutOfMemory> {
    Ok(Method {
        annotations: Items::new(alloc),
        modifiers,
        answer: Answer::Void,
        ident: ident(M),
        params: params(alloc, rows)?,
        body: Items::new(alloc),
    })
}

fn constructor(
    alloc: Global,
    modifiers: Modifiers,
    rows: &[Row],
) -> Result<Constructor, OutOfMemory> {
    Ok(Constructor {
        annotations: Items::new(alloc),
        modifiers,
        ident: ident(A),
        params: params(alloc, rows)?,
        body: Items::new(alloc),
    })
}

// Two variables.
fn vars(alloc: Global) -> Result<Items<Var>, OutOfMemory> {
    let mut vars = Items::new(alloc);
    for name in [F, F + 1] {
        vars.push(Var {
            ident: ident(name),
            initial: None,
        })?;
    }
    Ok(vars)
}

fn field(alloc: Global, modifiers: Modifiers) -> Result<Field, OutOfMemory> {
    Ok(Field {
        annotations: Items::new(alloc),
        modifiers,
        written: VarType::Typed(TypeTree::Int(PLACE)),
        vars: vars(alloc)?,
    })
}

fn class(
    alloc: Global,
    superclass: Option<Name>,
    interface: Option<Name>,
    members: Items<MemberTree>,
) -> ClassTree {
    ClassTree {
        annotations: Items::new(alloc),
        modifiers: PLAIN,
        ident: ident(A),
        superclass: maybe_ident(superclass),
        interface: maybe_ident(interface),
        members,
    }
}

fn class_with(alloc: Global, member: MemberTree) -> Result<Declared, OutOfMemory> {
    let mut members = Items::new(alloc);
    members.push(member)?;
    declare_class(alloc, &KNOWN, &class(alloc, None, None, members))
}

// Two final variables with one annotation.
fn declaration(alloc: Global, names: &[Name]) -> Result<Top, OutOfMemory> {
    let mut path = Items::new(alloc);
    for name in names {
        path.push(ident(*name))?;
    }
    let mut annotations = Items::new(alloc);
    annotations.push(Annotation {
        place: PLACE,
        path,
        settings: Items::new(alloc),
    })?;
    let decl = Decl {
        place: PLACE,
        is_final: true,
        written: VarType::Def,
        vars: vars(alloc)?,
    };
    Ok(Top::Decl(annotations, decl))
}

// A class, a method and a declaration with an annotation of these names.
fn script(alloc: Global, names: &[Name]) -> Result<Script, OutOfMemory> {
    let mut tops = Items::new(alloc);
    tops.push(Top::Class(class(alloc, None, None, Items::new(alloc))))?;
    tops.push(Top::Method(method(alloc, PLAIN, &[])?))?;
    tops.push(declaration(alloc, names)?)?;
    Ok(Script { tops })
}

// The types and the flags of each member.
fn shapes(alloc: Global, members: &[Member]) -> Result<String, Fail> {
    let mut text = String::new(alloc);
    for member in members {
        let shape = format!(in alloc; "{:?} {};", member.types.as_slice(), member.flags)?;
        text.push_str(shape.as_str())?;
    }
    Ok(text)
}

// The name, the kind and the flags of each member.
fn heads(alloc: Global, members: &[Member]) -> Result<String, Fail> {
    let mut text = String::new(alloc);
    for member in members {
        let head = format!(in alloc; "{} {:?} {};", member.name, member.kind, member.flags)?;
        text.push_str(head.as_str())?;
    }
    Ok(text)
}

#[test]
fn each_default_makes_one_more(rt: HostRuntime) -> Result<(), Fail> {
    let alloc = rt.alloc();
    for (modifiers, rows, wanted) in METHODS {
        let declared = class_with(alloc, MemberTree::Method(method(alloc, modifiers, rows)?))?;
        let found = shapes(alloc, declared.members.as_slice())?;
        assert_eq!(rt; found.as_str(), wanted);
        let constructor = constructor(alloc, modifiers, rows)?;
        let declared = class_with(alloc, MemberTree::Constructor(constructor))?;
        let found = shapes(alloc, declared.members.as_slice())?;
        assert_eq!(rt; found.as_str(), wanted);
    }
    Ok(())
}

#[test]
fn properties_have_no_access_modifier(rt: HostRuntime) -> Result<(), Fail> {
    let alloc = rt.alloc();
    for (modifiers, flags) in FIELDS {
        let declared = class_with(alloc, MemberTree::Field(field(alloc, modifiers)?))?;
        let found = shapes(alloc, declared.members.as_slice())?;
        let wanted = format!(in alloc; "[2] {flags};[2] {flags};")?;
        assert_eq!(rt; found.as_str(), wanted.as_str());
    }
    Ok(())
}

#[test]
fn superclasses_and_interfaces(rt: HostRuntime) -> Result<(), Fail> {
    let alloc = rt.alloc();
    for (superclass, interface, above, intercepts) in CLASSES {
        let class = class(alloc, superclass, interface, Items::new(alloc));
        let declared = declare_class(alloc, &KNOWN, &class)?;
        assert_eq!(rt; (declared.name, declared.above), (A, above));
        assert_eq!(rt; (declared.intercepts, declared.place), (intercepts, PLACE));
    }
    Ok(())
}

#[test]
fn members_in_order(rt: HostRuntime) -> Result<(), Fail> {
    let alloc = rt.alloc();
    let mut members = Items::new(alloc);
    members.push(MemberTree::Field(field(alloc, PLAIN)?))?;
    members.push(MemberTree::Constructor(constructor(alloc, PLAIN, &[])?))?;
    members.push(MemberTree::Method(method(alloc, PLAIN, &[])?))?;
    let declared = declare_class(alloc, &KNOWN, &class(alloc, None, None, members))?;
    let found = heads(alloc, declared.members.as_slice())?;
    assert_eq!(rt;
        found.as_str(),
        "40 Field 8;41 Field 8;20 Constructor 0;30 Method 0;"
    );
    Ok(())
}

#[test]
fn fields_of_scripts(rt: HostRuntime) -> Result<(), Fail> {
    let alloc = rt.alloc();
    let rows: [(&[Name], &str); 4] = [
        (&[11], "30 Method 0;40 Field 10;41 Field 10;"),
        (&[12, 13, 11], "30 Method 0;40 Field 10;41 Field 10;"),
        (&[12], "30 Method 0;"),
        (&[13, 11], "30 Method 0;"),
    ];
    for (names, wanted) in rows {
        let mut members = Items::new(alloc);
        declare_members(alloc, &KNOWN, WORDS, &script(alloc, names)?, &mut members)?;
        let found = heads(alloc, members.as_slice())?;
        assert_eq!(rt; found.as_str(), wanted);
    }
    Ok(())
}

#[test]
fn the_script_stands_before_its_classes(rt: HostRuntime) -> Result<(), Fail> {
    let alloc = rt.alloc();
    let mut names = Names::new(alloc);
    let mut classes = Classes::new(alloc, &mut names)?;
    let scripts = [script(alloc, &[11])?, script(alloc, &[12])?];
    declare_all(alloc, &KNOWN, WORDS, &scripts, &mut classes)?;
    assert_eq!(rt; classes.len(), BUILT_IN + 3);
    if BUILT_IN < classes.len() {
        let declared = classes.get(BUILT_IN);
        let found = heads(alloc, declared.members.as_slice())?;
        assert_eq!(rt; (declared.name, declared.above), (5, 1));
        assert_eq!(rt;
            found.as_str(),
            "30 Method 0;40 Field 10;41 Field 10;30 Method 0;"
        );
    }
    Ok(())
}

#[test]
fn the_known_names_are_put_in_once(rt: HostRuntime) -> Result<(), Fail> {
    let mut names = Names::new(rt.alloc());
    names.intern("Long")?;
    let known = Known::new(&mut names)?;
    assert_eq!(rt; (known.long, known.object, known.interceptable), (0, 1, 5));
    Ok(())
}
