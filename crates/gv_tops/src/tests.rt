use crate::annotations::{annotation_of, annotation_refused};
use crate::imports::{Imported, import_refused};
use crate::target::{Target, target_of};
use crate::transform::Transform;
use crate::{Known, first_of_tops};
use gv_base::{Name, Names, OutOfMemory, Place, Refusal, RefusalKind};
use gv_tree::{
    Annotation, Answer, ClassTree, Constructor, Decl, Field, Ident, Import, Member, Method,
    Modifiers, Script, Top, Var, VarType,
};
use sqlite_items::Items;
use std::alloc::Global;
use std::test::Fail;

const KNOWN: Known = Known {
    groovy: 1,
    transform: 2,
    lang: 3,
    to_string: 4,
    equals_and_hash_code: 5,
    tuple_constructor: 6,
    field: 7,
    delegate: 8,
    singleton: 9,
    lazy: 10,
    get_property: 11,
    set_property: 12,
};

// The same names for short.
const G: Name = 1;

const T: Name = 2;

const L: Name = 3;

const TO_STRING: Name = 4;

const EQUALS: Name = 5;

const TUPLE: Name = 6;

const FIELD: Name = 7;

const DELEGATE: Name = 8;

const SINGLETON: Name = 9;

const LAZY: Name = 10;

// A name that is no known one.
const OTHER: Name = 20;

// No word stands before a declaration.
const PLAIN: Modifiers = Modifiers {
    is_public: false,
    is_private: false,
    is_protected: false,
    is_static: false,
    is_final: false,
};

// The names between the dots, whether `.*` follows, and whether the profile has it.
const IMPORTS: [(&[Name], bool, bool); 28] = [
    (&[G, T, TO_STRING], false, true),
    (&[G, T, EQUALS], false, true),
    (&[G, T, TUPLE], false, true),
    (&[G, T, FIELD], false, true),
    (&[G, L, DELEGATE], false, true),
    (&[G, L, SINGLETON], false, true),
    (&[G, L, LAZY], false, true),
    (&[G, T], true, true),
    (&[G, L], true, true),
    (&[G, L, TO_STRING], false, false),
    (&[G, L, EQUALS], false, false),
    (&[G, L, TUPLE], false, false),
    (&[G, L, FIELD], false, false),
    (&[G, T, DELEGATE], false, false),
    (&[G, T, SINGLETON], false, false),
    (&[G, T, LAZY], false, false),
    (&[G, T], false, false),
    (&[G], true, false),
    (&[T], true, false),
    (&[OTHER, T], true, false),
    (&[G, OTHER], true, false),
    (&[G, T, FIELD], true, false),
    (&[FIELD], false, false),
    (&[T, FIELD], false, false),
    (&[OTHER, T, FIELD], false, false),
    (&[G, OTHER, FIELD], false, false),
    (&[G, T, OTHER], false, false),
    (&[G, T, FIELD, OTHER], false, false),
];

// An import, whether `.*` follows, an annotation's names, and what it is.
const KNOWN_ONES: [(&[Name], bool, &[Name], Option<Transform>); 33] = [
    (&[], false, &[DELEGATE], Some(Transform::Delegate)),
    (&[], false, &[SINGLETON], Some(Transform::Singleton)),
    (&[], false, &[LAZY], Some(Transform::Lazy)),
    (&[], false, &[TO_STRING], None),
    (&[], false, &[EQUALS], None),
    (&[], false, &[TUPLE], None),
    (&[], false, &[FIELD], None),
    (&[G, T], true, &[TO_STRING], Some(Transform::ToString)),
    (&[G, T], true, &[EQUALS], Some(Transform::EqualsAndHashCode)),
    (&[G, T], true, &[TUPLE], Some(Transform::TupleConstructor)),
    (&[G, T], true, &[FIELD], Some(Transform::Field)),
    (&[G, T], true, &[LAZY], Some(Transform::Lazy)),
    (&[G, L], true, &[FIELD], None),
    (
        &[G, T, TO_STRING],
        false,
        &[TO_STRING],
        Some(Transform::ToString),
    ),
    (
        &[G, T, EQUALS],
        false,
        &[EQUALS],
        Some(Transform::EqualsAndHashCode),
    ),
    (
        &[G, T, TUPLE],
        false,
        &[TUPLE],
        Some(Transform::TupleConstructor),
    ),
    (&[G, T, FIELD], false, &[FIELD], Some(Transform::Field)),
    (&[G, T, TO_STRING], false, &[EQUALS], None),
    (&[G, T, EQUALS], false, &[TUPLE], None),
    (&[G, T, TUPLE], false, &[FIELD], None),
    (&[G, T, FIELD], false, &[TO_STRING], None),
    (&[G, L, FIELD], false, &[FIELD], None),
    (&[], false, &[G, T, TO_STRING], Some(Transform::ToString)),
    (
        &[],
        false,
        &[G, T, EQUALS],
        Some(Transform::EqualsAndHashCode),
    ),
    (
        &[],
        false,
        &[G, T, TUPLE],
        Some(Transform::TupleConstructor),
    ),
    (&[], false, &[G, T, FIELD], Some(Transform::Field)),
    (&[], false, &[G, L, DELEGATE], Some(Transform::Delegate)),
    (&[], false, &[G, L, SINGLETON], Some(Transform::Singleton)),
    (&[], false, &[G, L, LAZY], Some(Transform::Lazy)),
    (&[G, T], true, &[G, L, FIELD], None),
    (&[G, T], true, &[T, FIELD], None),
    (&[G, T], true, &[G, T, FIELD, OTHER], None),
    (&[G, T], true, &[OTHER], None),
];

// An annotation's names, and whether it may stand on a class, a property, a declaration at the top, and elsewhere.
const TARGETS: [(&[Name], bool, bool, bool, bool); 7] = [
    (&[G, T, TO_STRING], true, false, false, false),
    (&[G, T, EQUALS], true, false, false, false),
    (&[G, T, TUPLE], true, false, false, false),
    (&[G, T, FIELD], false, false, true, false),
    (&[DELEGATE], false, true, false, false),
    (&[SINGLETON], true, false, false, false),
    (&[LAZY], false, true, false, false),
];

// What stands in line 1 of a script.
#[derive(Clone, Copy)]
enum Piece {
    // a declaration of two variables
    Declaration,
    Method,
    // a class, with a method that isn't annotated
    Class,
    // a member of a class that isn't annotated
    InClass,
    StaticInClass,
    Constructor,
    // a declaration of two variables in a class
    Field(Modifiers),
}

const PRIVATE: Modifiers = Modifiers {
    is_private: true,
    ..PLAIN
};

const PUBLIC: Modifiers = Modifiers {
    is_public: true,
    ..PLAIN
};

const PROTECTED: Modifiers = Modifiers {
    is_protected: true,
    ..PLAIN
};

const STATIC: Modifiers = Modifiers {
    is_static: true,
    ..PLAIN
};

// A piece, its annotation or none, its name, what is imported in line 2 with `.*`, and the refusal: its kind, and its
// column in line 1.
const SCRIPTS: [(Piece, &[Name], Name, &[Name], Option<(RefusalKind, u32)>); 16] = [
    (Piece::Declaration, &[FIELD], OTHER, &[G, T], None),
    (
        Piece::Declaration,
        &[FIELD],
        OTHER,
        &[G, L],
        Some((RefusalKind::UnknownClass, 1)),
    ),
    (Piece::Declaration, &[G, T, FIELD], OTHER, &[G, L], None),
    (
        Piece::Declaration,
        &[LAZY],
        OTHER,
        &[G, L],
        Some((RefusalKind::AnnotationOutOfPlace, 1)),
    ),
    (
        Piece::Method,
        &[],
        11,
        &[G, L],
        Some((RefusalKind::PropertyOverride, 9)),
    ),
    (
        Piece::Method,
        &[],
        12,
        &[G, L],
        Some((RefusalKind::PropertyOverride, 9)),
    ),
    (Piece::Method, &[], OTHER, &[G, L], None),
    (
        Piece::Method,
        &[LAZY],
        11,
        &[G, L],
        Some((RefusalKind::AnnotationOutOfPlace, 1)),
    ),
    (Piece::Class, &[SINGLETON], OTHER, &[G, L], None),
    (
        Piece::Class,
        &[FIELD],
        OTHER,
        &[G, T],
        Some((RefusalKind::AnnotationOutOfPlace, 1)),
    ),
    (
        Piece::InClass,
        &[],
        11,
        &[G, L],
        Some((RefusalKind::PropertyOverride, 9)),
    ),
    (
        Piece::StaticInClass,
        &[],
        12,
        &[G, L],
        Some((RefusalKind::PropertyOverride, 9)),
    ),
    (
        Piece::InClass,
        &[OTHER],
        OTHER,
        &[G, L],
        Some((RefusalKind::UnknownClass, 1)),
    ),
    (
        Piece::Constructor,
        &[SINGLETON],
        OTHER,
        &[G, L],
        Some((RefusalKind::AnnotationOutOfPlace, 1)),
    ),
    (Piece::Field(PLAIN), &[LAZY], OTHER, &[G, L], None),
    (
        Piece::Field(STATIC),
        &[LAZY],
        OTHER,
        &[G, L],
        Some((RefusalKind::AnnotationOutOfPlace, 1)),
    ),
];

fn at(line: u32, column: u32) -> Place {
    Place {
        file: 0,
        line,
        column,
    }
}

fn refused(kind: RefusalKind, line: u32, column: u32) -> Option<Refusal> {
    Some(Refusal {
        kind,
        place: at(line, column),
    })
}

fn ident(column: u32, name: Name) -> Ident {
    Ident {
        place: at(1, column),
        name,
    }
}

fn path(alloc: Global, names: &[Name]) -> Result<Items<Ident>, OutOfMemory> {
    let mut path = Items::new(alloc);
    for name in names {
        path.push(ident(2, *name))?;
    }
    Ok(path)
}

// In the line's column 1.
fn import(alloc: Global, line: u32, names: &[Name], is_all: bool) -> Result<Import, OutOfMemory> {
    Ok(Import {
        place: at(line, 1),
        path: path(alloc, names)?,
        is_all,
    })
}

// In column 1.
fn annotation(alloc: Global, names: &[Name]) -> Result<Annotation, OutOfMemory> {
    Ok(Annotation {
        place: at(1, 1),
        path: path(alloc, names)?,
        settings: Items::new(alloc),
    })
}

// One annotation, or none where there are no names.
fn annotations(alloc: Global, names: &[Name]) -> Result<Items<Annotation>, OutOfMemory> {
    let mut all = Items::new(alloc);
    if !names.is_empty() {
        all.push(annotation(alloc, names)?)?;
    }
    Ok(all)
}

// In column 9.
fn method(
    alloc: Global,
    names: &[Name],
    modifiers: Modifiers,
    name: Name,
) -> Result<Method, OutOfMemory> {
    Ok(Method {
        annotations: annotations(alloc, names)?,
        modifiers,
        answer: Answer::Void,
        ident: ident(9, name),
        params: Items::new(alloc),
        body: Items::new(alloc),
    })
}

// Two variables, in the columns 5 and 9.
fn vars(alloc: Global, name: Name) -> Result<Items<Var>, OutOfMemory> {
    let mut vars = Items::new(alloc);
    vars.push(Var {
        ident: ident(5, OTHER),
        initial: None,
    })?;
    vars.push(Var {
        ident: ident(9, name),
        initial: None,
    })?;
    Ok(vars)
}

fn field(
    alloc: Global,
    names: &[Name],
    modifiers: Modifiers,
    name: Name,
) -> Result<Field, OutOfMemory> {
    Ok(Field {
        annotations: annotations(alloc, names)?,
        modifiers,
        written: VarType::Def,
        vars: vars(alloc, name)?,
    })
}

fn declaration(alloc: Global, names: &[Name], name: Name) -> Result<Top, OutOfMemory> {
    let decl = Decl {
        place: at(1, 5),
        is_final: false,
        written: VarType::Def,
        vars: vars(alloc, name)?,
    };
    Ok(Top::Decl(annotations(alloc, names)?, decl))
}

fn constructor(alloc: Global, names: &[Name]) -> Result<Constructor, OutOfMemory> {
    Ok(Constructor {
        annotations: annotations(alloc, names)?,
        modifiers: PLAIN,
        ident: ident(5, OTHER),
        params: Items::new(alloc),
        body: Items::new(alloc),
    })
}

// A class in column 1, with one member.
fn class(alloc: Global, names: &[Name], member: Member) -> Result<Top, OutOfMemory> {
    let mut members = Items::new(alloc);
    members.push(member)?;
    Ok(Top::Class(ClassTree {
        annotations: annotations(alloc, names)?,
        modifiers: PLAIN,
        ident: ident(9, OTHER),
        superclass: None,
        interface: None,
        members,
    }))
}

fn top(alloc: Global, piece: Piece, names: &[Name], name: Name) -> Result<Top, OutOfMemory> {
    match piece {
        Piece::Declaration => declaration(alloc, names, name),
        Piece::Method => Ok(Top::Method(method(alloc, names, PLAIN, name)?)),
        Piece::Class => class(
            alloc,
            names,
            Member::Method(method(alloc, &[], PLAIN, name)?),
        ),
        Piece::InClass => class(
            alloc,
            &[],
            Member::Method(method(alloc, names, PLAIN, name)?),
        ),
        Piece::StaticInClass => class(
            alloc,
            &[],
            Member::Method(method(alloc, names, STATIC, name)?),
        ),
        Piece::Constructor => class(alloc, &[], Member::Constructor(constructor(alloc, names)?)),
        Piece::Field(modifiers) => class(
            alloc,
            &[],
            Member::Field(field(alloc, names, modifiers, name)?),
        ),
    }
}

fn script(alloc: Global, top: Top, imported: &[Name]) -> Result<Script, OutOfMemory> {
    let mut tops = Items::new(alloc);
    tops.push(top)?;
    tops.push(Top::Import(import(alloc, 2, imported, true)?))?;
    Ok(Script { tops })
}

fn imports_refused(
    alloc: Global,
    names: &[Name],
    is_all: bool,
) -> Result<Option<Refusal>, OutOfMemory> {
    let import = import(alloc, 3, names, is_all)?;
    Ok(import_refused(&KNOWN, &import, None))
}

fn known_as(
    alloc: Global,
    imported: &[Name],
    is_all: bool,
    names: &[Name],
) -> Result<Option<Transform>, OutOfMemory> {
    let import = import(alloc, 2, imported, is_all)?;
    let path = path(alloc, names)?;
    let imported = Imported::nothing().with_import(&KNOWN, &import);
    Ok(annotation_of(&KNOWN, imported, path.as_slice()))
}

fn may_stand(alloc: Global, names: &[Name], target: Target) -> Result<bool, OutOfMemory> {
    let annotation = annotation(alloc, names)?;
    Ok(annotation_refused(&KNOWN, Imported::nothing(), target, &annotation, None).is_none())
}

fn told(
    alloc: Global,
    piece: Piece,
    names: &[Name],
    name: Name,
    imported: &[Name],
    first: Option<Refusal>,
) -> Result<Option<Refusal>, OutOfMemory> {
    let script = script(alloc, top(alloc, piece, names, name)?, imported)?;
    Ok(first_of_tops(&KNOWN, &script, first))
}

#[test]
fn only_some_imports_are_in_the_profile(rt: HostRuntime) -> Result<(), Fail> {
    for (names, is_all, is_in_profile) in IMPORTS {
        let refusal = imports_refused(rt.alloc(), names, is_all)?;
        assert_eq!(rt; refusal == None, is_in_profile);
    }
    let refusal = imports_refused(rt.alloc(), &[G], true)?;
    assert_eq!(rt; refusal, refused(RefusalKind::ImportOutsideProfile, 3, 1));
    Ok(())
}

#[test]
fn annotations_are_known_by_name(rt: HostRuntime) -> Result<(), Fail> {
    for (imported, is_all, names, transform) in KNOWN_ONES {
        let known = known_as(rt.alloc(), imported, is_all, names)?;
        assert_eq!(rt; known, transform);
    }
    Ok(())
}

#[test]
fn each_annotation_has_its_places(rt: HostRuntime) -> Result<(), Fail> {
    for (names, class, property, declaration, other) in TARGETS {
        assert_eq!(rt; may_stand(rt.alloc(), names, Target::Class)?, class);
        assert_eq!(rt; may_stand(rt.alloc(), names, Target::Property)?, property);
        assert_eq!(rt;
            may_stand(rt.alloc(), names, Target::Declaration)?,
            declaration
        );
        assert_eq!(rt; may_stand(rt.alloc(), names, Target::Other)?, other);
    }
    Ok(())
}

#[test]
fn properties_are_not_static(rt: HostRuntime) {
    for modifiers in [STATIC, PUBLIC, PRIVATE, PROTECTED] {
        assert_eq!(rt; target_of(modifiers), Target::Other);
    }
    assert_eq!(rt; target_of(PLAIN), Target::Property);
}

#[test]
fn each_script_has_its_refusal(rt: HostRuntime) -> Result<(), Fail> {
    for (piece, names, name, imported, refusal) in SCRIPTS {
        let told = told(rt.alloc(), piece, names, name, imported, None)?;
        let wanted = match refusal {
            Some((kind, column)) => refused(kind, 1, column),
            None => None,
        };
        assert_eq!(rt; told, wanted);
    }
    Ok(())
}

#[test]
fn the_first_refusal_stays(rt: HostRuntime) -> Result<(), Fail> {
    let first = refused(RefusalKind::NothingToLeave, 1, 2);
    let told = told(rt.alloc(), Piece::Method, &[], 11, &[G, T], first)?;
    assert_eq!(rt; told, first);
    Ok(())
}

#[test]
fn the_known_names_are_put_in_once(rt: HostRuntime) -> Result<(), Fail> {
    let mut names = Names::new(rt.alloc());
    names.intern("Field")?;
    let known = Known::new(&mut names)?;
    assert_eq!(rt;
        (known.field, known.groovy, known.tuple_constructor),
        (0, 1, 6)
    );
    Ok(())
}
