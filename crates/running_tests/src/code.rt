use gv_base::OutOfMemory;
use gv_code::{
    Body, CodeBuilder, Handler, Instruction, Item, Items, Op, OperandKind, PieceBuilder, Stack,
    Ways,
};
use gv_core::Exit;
use std::alloc::Global;
use std::test::Fail;

fn out(alloc: Global, exit: Exit) -> Result<PieceBuilder, OutOfMemory> {
    let mut items = Vec::new(alloc);
    items.push(Item::Out(Items::new(alloc), exit))?;
    Ok(PieceBuilder::bare(alloc, items))
}

// A `break` and a `return`, each with a handler.
fn body(alloc: Global) -> Result<Body, OutOfMemory> {
    let first = out(alloc, Exit::Breaks)?.guard(7, 1, 0)?;
    let second = out(alloc, Exit::Returns)?.guard(8, 0, 1)?;
    let piece = first.join(second)?.direct(alloc, Ways::Loop(2))?;
    piece.guard(9, 2, 0)?.finish(alloc, 1, 3)
}

fn handler(from: usize, to: usize, class: usize, target: usize, kept: usize) -> Handler {
    Handler {
        from,
        to,
        class,
        target,
        kept,
    }
}

fn op_at(body: &Body, at: usize) -> Op {
    match body.steps.get(at) {
        Some(step) => step.op,
        None => Op::Tick,
    }
}

#[test]
fn a_body_is_put_together(rt: HostRuntime) -> Result<(), Fail> {
    let body = body(rt.alloc())?;
    let handlers = [
        handler(0, 1, 7, 2, 0),
        handler(1, 2, 8, 2, 1),
        handler(0, 2, 9, 4, 0),
    ];
    assert_eq!(rt; body.handlers.as_slice(), handlers.as_slice());
    assert_eq!(rt; op_at(&body, 0), Op::Leave(4, 2));
    assert_eq!(rt; op_at(&body, 1), Op::Finish);
    assert_eq!(rt; body.steps.len(), 2);
    assert_eq!(rt; (body.captured, body.parameters), (1, 3));
    Ok(())
}

#[test]
fn a_code_has_its_bodies(rt: HostRuntime) -> Result<(), Fail> {
    let mut code = CodeBuilder::new(rt.alloc());
    let mut items = Items::new(rt.alloc());
    items.push(Item::Plain(Instruction {
        shape: Items::new(rt.alloc()),
        op: Op::Load(0),
    }))?;
    code.push_value(items)?;
    assert_eq!(rt; code.shape(), [OperandKind::Value].as_slice());
    assert_eq!(rt; code.items().len(), 1);
    code.push_body(body(rt.alloc())?)?;
    let code = code.finish();
    assert_eq!(rt;
        (code.bodies.len(), code.methods.len(), code.start),
        (1, 0, 0)
    );
    Ok(())
}

#[test]
fn a_stack_keeps_its_lowest(rt: HostRuntime) -> Result<(), Fail> {
    let mut stack = Stack::new(rt.alloc());
    for n in 0..4 {
        stack.push(n)?;
    }
    assert_eq!(rt; stack.pop(), Some(3));
    assert_eq!(rt; stack.last(2), [1, 2].as_slice());
    assert_eq!(rt; stack.last(9), [0, 1, 2].as_slice());
    stack.cut(2);
    assert_eq!(rt; stack.last(2), [0, 1].as_slice());
    stack.clear();
    assert_eq!(rt; stack.len(), 0);
    Ok(())
}
