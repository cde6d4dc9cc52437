use gv_base::OutOfMemory;
use gv_code::{Code, Op};
use gv_core::{Const, Expr, Source, Stmt};
use gv_emit::emit;
use sqlite_items::Boxed;
use std::alloc::Global;
use std::test::Fail;

// `while (a == 1) break`, where a is the parameter.
fn source(alloc: Global) -> Result<Source, OutOfMemory> {
    let one = Boxed::new(alloc, Expr::Const(Const::Int(1)))?;
    let test = Expr::Equal(Boxed::new(alloc, Expr::Local(0))?, one);
    Ok(Source {
        captured: 0,
        parameters: 1,
        tree: Stmt::While(test, Boxed::new(alloc, Stmt::Break)?),
    })
}

// What an instruction of the first body does.
fn op_at(code: &Code, at: usize) -> Op {
    match code.bodies.get(0) {
        Some(body) => match body.steps.get(at) {
            Some(step) => step.op,
            None => Op::Equal,
        },
        None => Op::Equal,
    }
}

#[test]
fn a_loop_is_written(rt: HostRuntime) -> Result<(), Fail> {
    let unit = [source(rt.alloc())?];
    let code = emit(rt.alloc(), &unit)?;
    let written = [
        Op::Tick,
        Op::Load(0),
        Op::Push(Const::Int(1)),
        Op::Equal,
        Op::JumpUnless(6),
        Op::Push(Const::Null),
        Op::Leave(3, 0),
        Op::JumpBack(7),
        Op::Discard,
        Op::JumpBack(9),
        Op::Discard,
        Op::Push(Const::Null),
        Op::Finish,
    ];
    for (at, op) in written.into_iter().enumerate() {
        assert_eq!(rt; op_at(&code, at), op);
    }
    assert_eq!(rt; code.bodies.len(), 1);
    Ok(())
}
