//! Each expression's code.

ghost use Rattle.std.specs.Prelude.{◌≡◌, IfOk, OnOk};
ghost use Rattle.gv_code.specs.Built.{with_value};
ghost use Rattle.gv_written.specs.Written.{expr_items};
ghost use Rattle.gv_emit_exprs.specs.Lists.{list_items};

use crate::items::{invoke, load, on_both, on_value, one, store, value_on};
use gv_base::OutOfMemory;
use gv_code::{CodeBuilder, Item, Items, Op, OperandKind};
use gv_core::Expr;
use std::alloc::Global;

/// The items of an expression, where so many variables are in scope and these operands lie on the stack.
#[cycle(exprs)]
#[tactic(auto, using(crate::proofs::Forms::forms))]
pub fn items_of(
    alloc: Global,
    height: usize,
    below: &[OperandKind],
    expr: &Expr,
) -> Result<Vec<Item>, OutOfMemory>
    ensures { IfOk result (λ items. items.items ≡ expr_items height below.now expr.now) }
{
    match expr {
        Expr::Const(constant) => one(alloc, below, Op::Push(*constant)),
        Expr::Local(slot) => one(alloc, below, load(height, *slot)),
        Expr::Assign(slot, value) => {
            let value = items_of(alloc, height, below, value.get())?;
            store(alloc, height, below, value, *slot)
        }
        Expr::Call(name, all) => {
            let values = items_of_all(alloc, height, below, all.as_slice())?;
            invoke(alloc, below, values, *name, all.len())
        }
        Expr::Ordered(order, value) => {
            let value = items_of(alloc, height, below, value.get())?;
            on_value(alloc, below, value, Op::Ordered(*order))
        }
        Expr::Equal(first, second) => {
            let first = items_of(alloc, height, below, first.get())?;
            let shape = value_on(alloc, below)?;
            let second = items_of(alloc, height, shape.as_slice(), second.get())?;
            on_both(alloc, below, first, second, Op::Equal)
        }
        Expr::Not(value) => {
            let value = items_of(alloc, height, below, value.get())?;
            on_value(alloc, below, value, Op::Not)
        }
    }
}

// The items of several, each of which leaves its value below the next.
#[cycle(exprs)]
#[tactic(auto, using(crate::proofs::Forms::forms))]
fn items_of_all(
    alloc: Global,
    height: usize,
    below: &[OperandKind],
    all: &[Expr],
) -> Result<Vec<Item>, OutOfMemory>
    ensures { IfOk result (λ items. items.items ≡ list_items height below.now all.now) }
{
    let mut items = Vec::new(alloc);
    let mut shape = Items::from_slice(alloc, below)?;
    for expr in all {
        let mut more = items_of(alloc, height, shape.as_slice(), expr)?;
        items.append(&mut more)?;
        shape = value_on(alloc, shape.as_slice())?;
    }
    Ok(items)
}

/// Writes the code of an expression, where so many variables are in scope.
pub fn emit_expr(
    alloc: Global,
    out: &mut CodeBuilder,
    height: usize,
    expr: &Expr,
) -> Result<(), OutOfMemory>
    ensures { OnOk result (out.new ≡ with_value (expr_items height out.old.shape expr.now) out.old) }
{
    let items = items_of(alloc, height, out.shape(), expr)?;
    out.push_value(Items::from_vec(items))
}
