use gv_base::OutOfMemory;
use gv_code::{CodeBuilder, Item, Items, Op};
use gv_core::{Const, Expr};
use gv_emit_exprs::emit_expr;
use sqlite_items::Boxed;
use std::alloc::Global;
use std::test::Fail;

// `a.plus(1) == b`, where b isn't in scope.
fn tree(alloc: Global) -> Result<Expr, OutOfMemory> {
    let mut all = Items::new(alloc);
    all.push(Expr::Local(0))?;
    all.push(Expr::Const(Const::Int(1)))?;
    let call = Boxed::new(alloc, Expr::Call(7, all))?;
    Ok(Expr::Equal(call, Boxed::new(alloc, Expr::Local(1))?))
}

// What an instruction does, and how many operands lie before it.
fn told(items: &[Item], at: usize) -> (Op, usize) {
    match items.get(at) {
        Some(Item::Plain(step)) => (step.op, step.shape.len()),
        _ => (Op::Tick, 0),
    }
}

#[test]
fn an_expression_is_written(rt: HostRuntime) -> Result<(), Fail> {
    let mut out = CodeBuilder::new(rt.alloc());
    emit_expr(rt.alloc(), &mut out, 1, &tree(rt.alloc())?)?;
    let written = [
        (Op::Load(0), 0),
        (Op::Push(Const::Int(1)), 1),
        (Op::Invoke(7, 2), 2),
        (Op::Push(Const::Null), 1),
        (Op::Equal, 2),
    ];
    assert_eq!(rt; out.items().len(), written.len());
    for (at, step) in written.into_iter().enumerate() {
        assert_eq!(rt; told(out.items(), at), step);
    }
    assert_eq!(rt; out.shape().len(), 1);
    Ok(())
}
