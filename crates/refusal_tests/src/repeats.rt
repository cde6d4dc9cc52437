ghost use Rattle.std.specs.Prelude.{◌≡◌, true, IfOk};
ghost use Rattle.gv_classes.specs.Classes as spec;

use gv_base::{Name, Names, OutOfMemory, Place};
use gv_classes::MemberKind::{Constructor, Field, Method};
use gv_classes::{Classes, Declared, Member, MemberKind, PRIVATE, REST, STATIC};
use gv_repeats::first_of_repeats;
use sqlite_items::Items;
use std::alloc::Global;
use std::test::Fail;

/// A member's kind, name, flags and one type.
type Row = (MemberKind, Name, u8, Name);

/// A class's file, name and members. It stands in line 1 more than its place in its list, its members in columns 10, 20 and 30.
type Class = (u8, Name, [Row; 3]);

fn member(alloc: Global, file: u8, line: u32, column: u32, row: Row) -> Result<Member, OutOfMemory>
    ensures { IfOk result (λ m. spec.has_rest_type m ≡ true) }
{
    let (kind, name, flags, named) = row;
    let mut types = Items::new(alloc);
    types.push(named)?;
    Ok(Member {
        name,
        types,
        kind,
        flags,
        place: Place { file, line, column },
    })
}

fn declared(alloc: Global, line: u32, class: &Class) -> Result<Declared, OutOfMemory>
    ensures { IfOk result (λ d. spec.AreRestsTyped d) }
{
    let (file, name, rows) = *class;
    let [first, second, third] = rows;
    let mut members = Items::new(alloc);
    members.push(member(alloc, file, line, 10, first)?)?;
    members.push(member(alloc, file, line, 20, second)?)?;
    members.push(member(alloc, file, line, 30, third)?)?;
    Ok(Declared {
        name,
        above: name,
        intercepts: false,
        place: Place {
            file,
            line,
            column: 1,
        },
        members,
    })
}

/// The kind, line and column of the first refusal in a file; zeros where it has none.
fn refused(alloc: Global, classes: &[Class], file: u8) -> Result<(u8, u32, u32), OutOfMemory> {
    let mut names = Names::new(alloc);
    let mut all = Classes::new(alloc, &mut names)?;
    let mut line = 1;
    for class in classes {
        if line < 1000 {
            all.add(declared(alloc, line, class)?)?;
            line += 1;
        }
    }
    match first_of_repeats(alloc, &all, file, None)? {
        Some(refusal) => Ok((
            refusal.kind.number(),
            refusal.place.line,
            refusal.place.column,
        )),
        None => Ok((0, 0, 0)),
    }
}

/// Names past those of the built-in classes.
const A: Name = 100;

const B: Name = 101;

const NONE: (u8, u32, u32) = (0, 0, 0);

#[test]
fn what_is_declared_twice(rt: HostRuntime) -> Result<(), Fail> {
    let table = [
        // the types of methods differ, or what the members are
        (
            [(Method, A, 0, 1), (Method, A, 0, 2), (Method, B, 0, 1)],
            NONE,
        ),
        (
            [(Method, A, 0, 1), (Constructor, A, 0, 1), (Field, A, 0, 1)],
            NONE,
        ),
        (
            [(Method, A, REST, 1), (Method, A, 0, 1), (Field, B, 0, 1)],
            NONE,
        ),
        // the same, whatever else is said of it
        (
            [(Method, A, 0, 1), (Method, B, 0, 1), (Method, A, STATIC, 1)],
            (26, 1, 30),
        ),
        (
            [
                (Method, A, REST, 1),
                (Method, A, REST, 1),
                (Method, A, 0, 1),
            ],
            (26, 1, 20),
        ),
        (
            [
                (Constructor, A, 0, 1),
                (Method, A, 0, 1),
                (Constructor, A, PRIVATE, 1),
            ],
            (26, 1, 30),
        ),
        (
            [(Field, A, 0, 1), (Field, A, 0, 2), (Field, A, 0, 1)],
            (20, 1, 20),
        ),
        (
            [(Method, A, 0, 1), (Method, A, 0, 1), (Method, A, 0, 1)],
            (26, 1, 20),
        ),
    ];
    for (rows, expected) in table {
        assert_eq!(rt; refused(rt.alloc(), &[(0, A, rows)], 0)?, expected);
        assert_eq!(rt; refused(rt.alloc(), &[(0, A, rows)], 1)?, NONE);
    }
    Ok(())
}

#[test]
fn classes_of_one_name(rt: HostRuntime) -> Result<(), Fail> {
    let fine = [(Method, A, 0, 1), (Method, A, 0, 2), (Field, A, 0, 1)];
    let twice = [(Field, A, 0, 1), (Field, A, 0, 2), (Field, B, 0, 1)];
    // name 0 is that of Object
    let table: [(&[Class], (u8, u32, u32), (u8, u32, u32)); 6] = [
        (&[(0, A, fine), (0, B, fine)], NONE, NONE),
        (
            &[(0, A, fine), (0, B, fine), (0, A, fine)],
            (20, 3, 1),
            NONE,
        ),
        (&[(0, A, fine), (1, A, fine)], NONE, (20, 2, 1)),
        (&[(0, 0, fine)], (20, 1, 1), NONE),
        (&[(1, A, twice), (0, B, twice)], (20, 2, 20), (20, 1, 20)),
        (&[(0, A, fine), (0, A, twice)], (20, 2, 1), NONE),
    ];
    for (classes, first, second) in table {
        assert_eq!(rt; refused(rt.alloc(), classes, 0)?, first);
        assert_eq!(rt; refused(rt.alloc(), classes, 1)?, second);
    }
    Ok(())
}
