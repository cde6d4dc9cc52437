use gv_base::{Limits, Names};
use gv_classes::{BUILT_IN, Classes};
use gv_meaning::{Output, opening};
use std::test::Fail;

const LIMITS: Limits = Limits {
    ticks: 7,
    cells: 5,
    depth: 3,
};

// The script's object takes none of the cells.
#[test]
fn a_world_is_opened(rt: HostRuntime) -> Result<(), Fail> {
    let mut names = Names::new(rt.alloc());
    let classes = Classes::new(rt.alloc(), &mut names)?;
    let text = names.intern("abc")?;
    let world = opening(rt.alloc(), &names, classes, &[text], LIMITS)?;
    assert_eq!(rt; world.heap.instance(world.script).class, BUILT_IN - 1);
    assert_eq!(rt; world.literals.as_slice(), [(text, 1)].as_slice());
    assert_eq!(rt; world.heap.text(1), "abc");
    assert_eq!(rt; world.heap.cells_left(), 5);
    assert_eq!(rt; (world.ticks, world.depth, world.instances), (7, 3, 0));
    Ok(())
}

#[test]
fn output_is_taken_away(rt: HostRuntime) -> Result<(), Fail> {
    let mut output = Output::new(rt.alloc());
    output.put(b"ab")?;
    output.put(b"c")?;
    assert_eq!(rt; output.as_slice(), b"abc".as_slice());
    output.clear();
    assert_eq!(rt; output.as_slice(), b"".as_slice());
    Ok(())
}
