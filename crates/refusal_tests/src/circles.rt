ghost use Rattle.gv_classes.specs.Classes.{AreRestsTyped};

use gv_base::{Name, Names, OutOfMemory, Place, Refusal, RefusalKind};
use gv_circles::first_of_circles;
use gv_classes::{Classes, Declared};
use sqlite_items::Items;
use std::alloc::Global;
use std::test::Fail;

// A class: its name, its superclass's, its file and its line. No class has the name 50.
type Row = (Name, Name, u8, u32);

// Classes, a file, and the line of the first refusal in it.
const CASES: [(&[Row], u8, Option<u32>); 18] = [
    (&[], 0, None),
    // No circle: a superclass that isn't there, one that comes later, and Object's name.
    (&[(51, 50, 0, 1), (52, 53, 0, 2), (53, 51, 0, 3)], 0, None),
    (&[(0, 0, 0, 1), (51, 0, 0, 2)], 0, None),
    // Its own superclass.
    (&[(51, 51, 0, 1)], 0, Some(1)),
    (
        &[(51, 50, 0, 1), (52, 52, 0, 2), (53, 50, 0, 3)],
        0,
        Some(2),
    ),
    // Two and three in a circle, which begins at the first one.
    (&[(51, 52, 0, 1), (52, 51, 0, 2)], 0, Some(1)),
    (
        &[
            (60, 50, 0, 1),
            (51, 53, 0, 2),
            (52, 51, 0, 3),
            (53, 52, 0, 4),
        ],
        0,
        Some(2),
    ),
    (
        &[
            (51, 52, 0, 9),
            (60, 51, 0, 2),
            (52, 53, 0, 4),
            (53, 51, 0, 7),
        ],
        0,
        Some(9),
    ),
    // Two circles.
    (
        &[
            (51, 53, 0, 1),
            (52, 54, 0, 2),
            (53, 51, 0, 3),
            (54, 52, 0, 4),
        ],
        0,
        Some(1),
    ),
    (&[(51, 51, 0, 8), (52, 52, 0, 2)], 0, Some(2)),
    // Classes that lead into a circle.
    (&[(51, 52, 0, 1), (52, 52, 0, 2)], 0, Some(2)),
    (
        &[(51, 52, 0, 1), (52, 53, 0, 2), (53, 52, 0, 3)],
        0,
        Some(2),
    ),
    // A circle is refused in the file of its first class.
    (&[(51, 51, 1, 1)], 0, None),
    (&[(51, 51, 0, 1), (52, 52, 1, 2)], 1, Some(2)),
    (&[(51, 52, 1, 1), (52, 51, 0, 2)], 0, None),
    (&[(51, 52, 1, 1), (52, 51, 0, 2)], 1, Some(1)),
    // A later class of the same name isn't on the circle of the first.
    (&[(51, 50, 0, 1), (51, 51, 0, 2)], 0, None),
    (
        &[(51, 52, 0, 3), (52, 51, 0, 2), (51, 52, 0, 1)],
        0,
        Some(3),
    ),
];

fn at(line: u32) -> Refusal {
    Refusal {
        kind: RefusalKind::SuperclassCircle,
        place: Place {
            file: 0,
            line,
            column: 5,
        },
    }
}

fn declared(alloc: Global, row: Row) -> Declared
    ensures { AreRestsTyped result }
{
    let (name, above, file, line) = row;
    Declared {
        name,
        above,
        intercepts: false,
        place: Place {
            file,
            line,
            column: 5,
        },
        members: Items::new(alloc),
    }
}

fn circle_in(
    alloc: Global,
    rows: &[Row],
    file: u8,
    first: Option<Refusal>,
) -> Result<Option<Refusal>, OutOfMemory> {
    let mut names = Names::new(alloc);
    let mut classes = Classes::new(alloc, &mut names)?;
    for row in rows {
        classes.add(declared(alloc, *row))?;
    }
    first_of_circles(alloc, &classes, file, first)
}

#[test]
fn circles_begin_at_their_first_class(rt: HostRuntime) -> Result<(), Fail> {
    for (rows, file, line) in CASES {
        let wanted = match line {
            Some(line) => Some(Refusal {
                kind: RefusalKind::SuperclassCircle,
                place: Place {
                    file,
                    line,
                    column: 5,
                },
            }),
            None => None,
        };
        assert_eq!(rt; circle_in(rt.alloc(), rows, file, None)?, wanted);
    }
    Ok(())
}

#[test]
fn the_first_refusal_stays(rt: HostRuntime) -> Result<(), Fail> {
    let rows = [(51, 51, 0, 3)];
    for (first, wanted) in [(2, 2), (3, 3), (4, 3)] {
        let told = circle_in(rt.alloc(), &rows, 0, Some(at(first)))?;
        assert_eq!(rt; told, Some(at(wanted)));
    }
    Ok(())
}

// Each of 1,000 classes extends the next one, and the last one extends this.
fn long_chain(alloc: Global, above: Name) -> Result<Option<Refusal>, OutOfMemory> {
    let mut names = Names::new(alloc);
    let mut classes = Classes::new(alloc, &mut names)?;
    for name in 1000..1999 {
        classes.add(declared(alloc, (name, name + 1, 0, 1)))?;
    }
    classes.add(declared(alloc, (1999, above, 0, 2)))?;
    first_of_circles(alloc, &classes, 0, None)
}

#[test]
fn a_long_chain(rt: HostRuntime) -> Result<(), Fail> {
    assert_eq!(rt; long_chain(rt.alloc(), 50)?, None);
    assert_eq!(rt; long_chain(rt.alloc(), 1000)?, Some(at(1)));
    assert_eq!(rt; long_chain(rt.alloc(), 1999)?, Some(at(2)));
    Ok(())
}
