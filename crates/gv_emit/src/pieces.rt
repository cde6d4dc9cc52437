//! Pieces of forms that are made of others.

ghost use Rattle.std.specs.Prelude.{◌≡◌, ◌+◌, ◌<◌, ◌^◌, [], ◌∷◌, ◌++◌, IfOk};
ghost use Rattle.gv_code.specs.declared.code.OperandKind.TheVariants.{Value as V};
ghost use Rattle.gv_code.specs.Pieces.{bare, plain};
ghost use Rattle.gv_written.specs.Written.{if_piece, loop_tail, while_piece};

use gv_base::OutOfMemory;
use gv_code::{Item, Op, OperandKind, PieceBuilder, Ways};
use gv_core::{Const, Exit};
use gv_emit_exprs::{leave, on_value, one};
use std::alloc::Global;

/// What leaves a value, and an instruction that finds it on top.
pub(crate) fn end(
    alloc: Global,
    below: &[OperandKind],
    value: Vec<Item>,
    op: Op,
) -> Result<PieceBuilder, OutOfMemory>
    ensures { IfOk result (λ piece. piece ≡ bare (value.items ++ plain (V ∷ below.now) op ∷ [])) }
{
    let items = on_value(alloc, below, value, op)?;
    Ok(PieceBuilder::bare(alloc, items))
}

/// What leaves a value, and a way out with it.
pub(crate) fn leave_with(
    alloc: Global,
    below: &[OperandKind],
    value: Vec<Item>,
    exit: Exit,
) -> Result<PieceBuilder, OutOfMemory>
    ensures { IfOk result (λ piece. piece ≡ bare (value.items ++ Item.Out (V ∷ below.now) exit ∷ [])) }
{
    let items = leave(alloc, below, value, exit)?;
    Ok(PieceBuilder::bare(alloc, items))
}

/// A way out with null.
pub(crate) fn leave_with_null(
    alloc: Global,
    below: &[OperandKind],
    exit: Exit,
) -> Result<PieceBuilder, OutOfMemory>
    ensures { IfOk result (λ piece. piece ≡ bare (plain below.now (Op.Push Const.Null) ∷ Item.Out (V ∷ below.now) exit ∷ [])) }
{
    let null = one(alloc, below, Op::Push(Const::Null))?;
    leave_with(alloc, below, null, exit)
}

/// The answer of null that stands behind the statements of a body.
pub(crate) fn end_with_null(alloc: Global) -> Result<PieceBuilder, OutOfMemory>
    ensures { IfOk result (λ piece. piece ≡ bare (plain [] (Op.Push Const.Null) ∷ plain (V ∷ []) Op.Finish ∷ [])) }
{
    let null = one(alloc, &[], Op::Push(Const::Null))?;
    end(alloc, &[], null, Op::Finish)
}

/// One of two pieces, by a value.
pub(crate) fn choose(
    alloc: Global,
    below: &[OperandKind],
    test: Vec<Item>,
    first: PieceBuilder,
    second: PieceBuilder,
) -> Result<PieceBuilder, OutOfMemory>
    ensures { IfOk result (λ piece. piece ≡ if_piece below.now test.items first second) }
{
    let head = end(alloc, below, test, Op::JumpUnless(first.len() + 1))?;
    let over = one(alloc, below, Op::JumpOn(second.len()))?;
    let rest = PieceBuilder::bare(alloc, over).join(second)?;
    let rest = first.join(rest)?;
    head.join(rest)
}

// What stands behind the body of a loop.
fn tail(alloc: Global, below: &[OperandKind], back: usize) -> Result<PieceBuilder, OutOfMemory>
    requires { back + 4 < 2 ^ 64 }
    ensures { IfOk result (λ piece. piece ≡ bare (loop_tail below.now back)) }
{
    let again = one(alloc, below, Op::JumpBack(back + 2))?;
    let mut items = on_value(alloc, below, again, Op::Discard)?;
    let again = one(alloc, below, Op::JumpBack(back + 4))?;
    let mut rest = on_value(alloc, below, again, Op::Discard)?;
    items.append(&mut rest)?;
    Ok(PieceBuilder::bare(alloc, items))
}

// What stands before the body of a loop: a tick, and the test.
fn head(
    alloc: Global,
    below: &[OperandKind],
    test: Vec<Item>,
    over: usize,
) -> Result<PieceBuilder, OutOfMemory>
    ensures { IfOk result (λ piece. piece ≡ bare (plain below.now Op.Tick ∷ (test.items ++ plain (V ∷ below.now) (Op.JumpUnless over) ∷ []))) }
{
    let mut items = one(alloc, below, Op::Tick)?;
    let mut rest = on_value(alloc, below, test, Op::JumpUnless(over))?;
    items.append(&mut rest)?;
    Ok(PieceBuilder::bare(alloc, items))
}

/// A loop.
pub(crate) fn repeat(
    alloc: Global,
    below: &[OperandKind],
    test: Vec<Item>,
    body: PieceBuilder,
) -> Result<PieceBuilder, OutOfMemory>
    ensures { IfOk result (λ piece. piece ≡ while_piece below.now test.items body) }
{
    let over = body.len() + 4;
    let behind = tail(alloc, below, test.len() + body.len())?;
    let before = head(alloc, below, test, over)?;
    let rest = body.direct(alloc, Ways::Loop(below.len()))?.join(behind)?;
    before.join(rest)
}
