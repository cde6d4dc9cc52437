ghost use Rattle.std.specs.Prelude.{[], IfOk};
ghost use Rattle.std.specs.List.{AllByRecursion};
ghost use Rattle.gv_code.specs.Forward.{Forward, JumpFits};

use gv_base::{Limits, Name, Names, OutOfMemory, Value};
use gv_classes::Classes;
use gv_code::{Body, Code, Instruction, Items, Op};
use gv_core::Const;
use gv_machine::{End, Machine, Pause};
use gv_meaning::{World, opening};
use std::alloc::Global;
use std::test::Fail;

/// The code of a script without jumps back: none of these fits where there are no instructions.
fn code(alloc: Global, ops: &[Op]) -> Result<Code, OutOfMemory>
    requires { AllByRecursion (JumpFits [] 0) ops.now }
    ensures { IfOk result (λ code. Forward code.bodies) }
{
    let mut steps = Items::new(alloc);
    for op in ops {
        steps.push(Instruction {
            shape: Items::new(alloc),
            op: *op,
        })?;
    }
    let mut bodies = Items::new(alloc);
    bodies.push(Body {
        parameters: 1,
        captured: 0,
        handlers: Items::new(alloc),
        steps,
    })?;
    Ok(Code {
        bodies,
        methods: Items::new(alloc),
        start: 0,
    })
}

/// A world, and the name of println in it.
fn world(alloc: Global, ticks: u64, cells: u64) -> Result<(World, Name), OutOfMemory> {
    let limits = Limits {
        ticks,
        cells,
        depth: 1,
    };
    let mut names = Names::new(alloc);
    let classes = Classes::new(alloc, &mut names)?;
    let println = names.intern("println")?;
    let world = opening(alloc, &names, classes, &[], limits)?;
    Ok((world, println))
}

/// What a machine answers twice.
fn answers(alloc: Global, ops: &[Op], ticks: u64, cells: u64) -> Result<(Pause, Pause), OutOfMemory>
    requires { AllByRecursion (JumpFits [] 0) ops.now }
{
    let (world, _) = world(alloc, ticks, cells)?;
    let mut machine = Machine::new(alloc, code(alloc, ops)?, world)?;
    Ok((machine.advance()?, machine.advance()?))
}

fn twice(end: End) -> (Pause, Pause) {
    (Pause::Ended(end), Pause::Ended(end))
}

#[test]
fn runs_end_and_stay_there(rt: HostRuntime) -> Result<(), Fail> {
    let seven = [Op::Push(Const::Int(7)), Op::Finish];
    let answered = answers(rt.alloc(), &seven, 0, 0)?;
    assert_eq!(rt; answered, twice(End::Value(Value::Int(7))));

    let ticking = [Op::Tick, Op::Push(Const::Null), Op::Finish];
    let answered = answers(rt.alloc(), &ticking, 1, 0)?;
    assert_eq!(rt; answered, twice(End::Value(Value::Null)));
    let answered = answers(rt.alloc(), &ticking, 0, 0)?;
    assert_eq!(rt; answered, twice(End::Ticks));

    // A method of null: the exception lies behind the script's object and its message.
    let throwing = [Op::Push(Const::Null), Op::Invoke(0, 1), Op::Finish];
    let answered = answers(rt.alloc(), &throwing, 1, 99)?;
    assert_eq!(rt; answered, twice(End::Uncaught(Value::Obj(2))));
    let answered = answers(rt.alloc(), &throwing, 1, 0)?;
    assert_eq!(rt; answered, twice(End::Cells));
    Ok(())
}

/// Whether a machine prints these bytes, and they are gone when they are dropped.
fn prints(machine: &mut Machine, bytes: &[u8]) -> Result<bool, OutOfMemory> {
    let nothing = machine.output().is_empty();
    machine.advance()?;
    let printed = machine.output() == bytes;
    machine.drop_output();
    Ok(nothing && printed && machine.output().is_empty())
}

#[test]
fn output_waits_until_it_is_dropped(rt: HostRuntime) -> Result<(), Fail> {
    let (world, println) = world(rt.alloc(), 1, 0)?;
    let printing = [
        Op::Load(0),
        Op::Push(Const::Int(5)),
        Op::Invoke(println, 2),
        Op::Finish,
    ];
    let code = code(rt.alloc(), &printing)?;
    let mut machine = Machine::new(rt.alloc(), code, world)?;
    let printed = prints(&mut machine, b"5\n");
    drop(machine);
    assert!(rt; printed?);
    Ok(())
}
