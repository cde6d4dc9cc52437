use gv_base::{Name, OutOfMemory, Place};
use gv_classes::MemberKind::{Constructor, Field, Method};
use gv_classes::{Member, MemberKind, REST, STATIC};
use gv_keys::{Keys, key};
use sqlite_items::Items;
use std::alloc::Global;
use std::test::Fail;

/// A member's kind, name, flags and one type.
type Row = (MemberKind, Name, u8, Name);

fn member(alloc: Global, row: Row) -> Result<Member, OutOfMemory> {
    let (kind, name, flags, named) = row;
    let mut types = Items::new(alloc);
    types.push(named)?;
    Ok(Member {
        name,
        types,
        kind,
        flags,
        place: Place {
            file: 0,
            line: 1,
            column: 1,
        },
    })
}

#[test]
fn members_of_one_class(rt: HostRuntime) -> Result<(), Fail> {
    let alloc = rt.alloc();
    // each member, and whether no earlier one has its key
    let rows: [(Row, bool); 9] = [
        ((Method, 7, 0, 1), true),
        ((Method, 7, STATIC, 1), false),
        ((Method, 7, REST, 1), true),
        ((Method, 7, 0, 2), true),
        ((Method, 8, 0, 1), true),
        ((Constructor, 7, 0, 1), true),
        ((Field, 7, 0, 1), true),
        ((Field, 7, STATIC, 2), false),
        ((Constructor, 7, 0, 1), false),
    ];
    let mut keys = Keys::new(alloc);
    let mut members = Items::new(alloc);
    for (row, is_new) in rows {
        let member = member(alloc, row)?;
        assert_eq!(rt; keys.put(key(alloc, &member)?)?, is_new);
        members.push(member)?;
    }
    let mut all = Keys::new(alloc);
    all.put_members(alloc, members.as_slice())?;
    for member in members.as_slice() {
        assert_eq!(rt; all.put(key(alloc, member)?)?, false);
    }
    Ok(())
}
