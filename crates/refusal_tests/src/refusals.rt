use gv_base::{Place, Refusal, RefusalKind};
use gv_refusals::earlier;

fn at(file: u8, line: u32, column: u32, kind: RefusalKind) -> Refusal {
    Refusal {
        kind,
        place: Place { file, line, column },
    }
}

#[test]
fn the_first_place_is_reported(rt: HostRuntime) {
    let first = at(0, 2, 5, RefusalKind::NameDeclaredTwice);
    assert_eq!(rt; earlier(None, first), Some(first));
    let others = [
        at(1, 1, 1, RefusalKind::NameDeclaredTwice),
        at(0, 3, 1, RefusalKind::NameDeclaredTwice),
        at(0, 2, 6, RefusalKind::NameDeclaredTwice),
        at(0, 2, 5, RefusalKind::UnknownClass),
    ];
    for other in others {
        assert_eq!(rt; earlier(Some(first), other), Some(first));
        assert_eq!(rt; earlier(Some(other), first), Some(first));
    }
}
