//! Each statement's code.

ghost use Rattle.std.specs.Prelude.{◌≡◌, ◌+◌, ◌∷◌, [], ◌++◌, IfOk};
ghost use Rattle.gv_code.specs.declared.code.OperandKind.TheVariants.{Value as V};
ghost use Rattle.gv_code.specs.Pieces.{bare, plain};
ghost use Rattle.gv_written.specs.Written.{declare, declares, expr_items, stmt_piece};
ghost use Rattle.gv_emit.specs.Lists.{list_piece};

use crate::pieces::{choose, end, leave_with, leave_with_null, repeat};
use gv_base::OutOfMemory;
use gv_code::{Item, Op, OperandKind, PieceBuilder};
use gv_core::{Exit, Expr, Stmt};
use gv_emit_exprs::items_of;
use std::alloc::Global;

// The instruction that makes a variable.
fn declare(shared: bool, slot: usize) -> Op
    ensures { result ≡ declare shared slot }
{
    if shared {
        Op::DeclareShared(slot)
    } else {
        Op::Declare(slot)
    }
}

/// More variables in scope. It fails where there are more than can be counted, for which there is no memory.
pub(crate) fn higher(height: usize, more: usize) -> Result<usize, OutOfMemory>
    ensures { IfOk result (λ sum. sum ≡ height + more) }
{
    height.checked_add(more).ok_or(OutOfMemory)
}

// How many variables a statement declares for those behind it.
fn declares(stmt: &Stmt) -> usize
    ensures { result ≡ declares stmt.now }
{
    match stmt {
        Stmt::Declare(_, _) => 1,
        _ => 0,
    }
}

// An expression, and an instruction that finds its value on top.
fn value_then(
    alloc: Global,
    height: usize,
    below: &[OperandKind],
    expr: &Expr,
    op: Op,
) -> Result<PieceBuilder, OutOfMemory>
    ensures { IfOk result (λ piece. piece ≡ bare (expr_items height below.now expr.now ++ plain (V ∷ below.now) op ∷ [])) }
{
    let value = items_of(alloc, height, below, expr)?;
    end(alloc, below, value, op)
}

// The end of a body with the value of an expression.
fn value_out(
    alloc: Global,
    height: usize,
    below: &[OperandKind],
    expr: &Expr,
) -> Result<PieceBuilder, OutOfMemory>
    ensures { IfOk result (λ piece. piece ≡ bare (expr_items height below.now expr.now ++ Item.Out (V ∷ below.now) Exit.Returns ∷ [])) }
{
    let value = items_of(alloc, height, below, expr)?;
    leave_with(alloc, below, value, Exit::Returns)
}

/// The piece of a statement, where so many variables are in scope and these operands lie on the stack.
#[cycle(stmts)]
#[tactic(auto, using(crate::proofs::Forms::forms))]
pub(crate) fn piece_of(
    alloc: Global,
    height: usize,
    below: &[OperandKind],
    stmt: &Stmt,
) -> Result<PieceBuilder, OutOfMemory>
    ensures { IfOk result (λ piece. piece ≡ stmt_piece height below.now stmt.now) }
{
    match stmt {
        Stmt::Declare(shared, expr) => {
            value_then(alloc, height, below, expr, declare(*shared, height))
        }
        Stmt::Do(expr) => value_then(alloc, height, below, expr, Op::Discard),
        Stmt::Block(all) => piece_of_all(alloc, height, below, all.as_slice()),
        Stmt::If(test, first, second) => {
            let test = items_of(alloc, height, below, test)?;
            let first = piece_of(alloc, height, below, first.get())?;
            let second = piece_of(alloc, height, below, second.get())?;
            choose(alloc, below, test, first, second)
        }
        Stmt::While(test, body) => {
            let test = items_of(alloc, height, below, test)?;
            let body = piece_of(alloc, height, below, body.get())?;
            repeat(alloc, below, test, body)
        }
        Stmt::Break => leave_with_null(alloc, below, Exit::Breaks),
        Stmt::Continue => leave_with_null(alloc, below, Exit::Continues),
        Stmt::Return(expr) => value_out(alloc, height, below, expr),
    }
}

// The piece of statements with a scope of their own.
#[cycle(stmts)]
#[tactic(auto, using(crate::proofs::Forms::forms))]
fn piece_of_all(
    alloc: Global,
    height: usize,
    below: &[OperandKind],
    all: &[Stmt],
) -> Result<PieceBuilder, OutOfMemory>
    ensures { IfOk result (λ piece. piece ≡ list_piece height below.now all.now) }
{
    let mut scope = height;
    let mut piece = PieceBuilder::bare(alloc, Vec::new(alloc));
    for stmt in all {
        let more = piece_of(alloc, scope, below, stmt)?;
        piece = piece.join(more)?;
        scope = higher(scope, declares(stmt))?;
    }
    Ok(piece)
}
