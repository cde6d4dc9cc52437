use gv_base::{OutOfMemory, Place, Refusal, RefusalKind};
use gv_bodies::first_of_bodies;
use gv_events::{Event, Scope};
use gv_tree::{Ident, Leave};

fn place(column: u32) -> Place {
    Place {
        file: 0,
        line: 1,
        column,
    }
}

fn name(column: u32, name: usize) -> Event {
    Event::Declare(Ident {
        place: place(column),
        name,
    })
}

fn refused(kind: RefusalKind, column: u32) -> Option<Refusal> {
    Some(Refusal {
        kind,
        place: place(column),
    })
}

#[test]
fn a_name_is_held_up_to_the_end_of_its_scope(rt: HostRuntime) -> Result<(), OutOfMemory> {
    let open = Event::Open(Scope::Block);
    let closure = Event::Open(Scope::Closure);
    let once = [open, name(1, 7), name(2, 8), Event::Close, name(3, 7)];
    assert_eq!(rt; first_of_bodies(rt.alloc(), &once, None)?, None);
    let twice = [name(1, 7), closure, name(2, 8), name(3, 7), name(4, 7)];
    assert_eq!(rt;
        first_of_bodies(rt.alloc(), &twice, None)?,
        refused(RefusalKind::NameDeclaredTwice, 3)
    );
    let behind = [closure, name(2, 7), Event::Close, name(9, 7), name(4, 7)];
    assert_eq!(rt;
        first_of_bodies(rt.alloc(), &behind, None)?,
        refused(RefusalKind::NameDeclaredTwice, 4)
    );
    let implicit = [
        closure,
        Event::Implicit(7),
        closure,
        Event::Implicit(7),
        Event::Close,
        name(5, 7),
    ];
    assert_eq!(rt;
        first_of_bodies(rt.alloc(), &implicit, None)?,
        refused(RefusalKind::NameDeclaredTwice, 5)
    );
    Ok(())
}

#[test]
fn a_way_out_has_something_to_leave(rt: HostRuntime) -> Result<(), OutOfMemory> {
    let breaks = Event::Leave(place(3), Leave::Break);
    let continues = Event::Leave(place(4), Leave::Continue);
    let open = [
        Event::Open(Scope::Loop),
        Event::Open(Scope::Block),
        breaks,
        continues,
    ];
    assert_eq!(rt; first_of_bodies(rt.alloc(), &open, None)?, None);
    let switch = [Event::Open(Scope::Switch), breaks, continues];
    assert_eq!(rt;
        first_of_bodies(rt.alloc(), &switch, None)?,
        refused(RefusalKind::NothingToLeave, 4)
    );
    let closure = [
        Event::Open(Scope::Loop),
        Event::Open(Scope::Closure),
        breaks,
    ];
    assert_eq!(rt;
        first_of_bodies(rt.alloc(), &closure, None)?,
        refused(RefusalKind::NothingToLeave, 3)
    );
    let behind = [Event::Open(Scope::Loop), Event::Close, continues, breaks];
    assert_eq!(rt;
        first_of_bodies(rt.alloc(), &behind, None)?,
        refused(RefusalKind::NothingToLeave, 3)
    );
    Ok(())
}

#[test]
fn this_and_super_stand_in_methods(rt: HostRuntime) -> Result<(), OutOfMemory> {
    let both = [Event::This(place(3)), Event::SuperCall(place(4))];
    assert_eq!(rt;
        first_of_bodies(rt.alloc(), &both, None)?,
        refused(RefusalKind::ThisOrSuperOutOfPlace, 4)
    );
    let method = [
        Event::Open(Scope::Method),
        Event::Open(Scope::Closure),
        Event::This(place(3)),
        Event::SuperCall(place(4)),
    ];
    assert_eq!(rt; first_of_bodies(rt.alloc(), &method, None)?, None);
    let fixed = [
        Event::Open(Scope::StaticMethod),
        Event::Open(Scope::Loop),
        Event::This(place(3)),
    ];
    assert_eq!(rt;
        first_of_bodies(rt.alloc(), &fixed, None)?,
        refused(RefusalKind::ThisOrSuperOutOfPlace, 3)
    );
    let anywhere = [Event::Open(Scope::Method), Event::OutOfPlace(place(6))];
    assert_eq!(rt;
        first_of_bodies(rt.alloc(), &anywhere, None)?,
        refused(RefusalKind::ThisOrSuperOutOfPlace, 6)
    );
    let before = refused(RefusalKind::ImportOutsideProfile, 2);
    assert_eq!(rt; first_of_bodies(rt.alloc(), &anywhere, before)?, before);
    Ok(())
}
