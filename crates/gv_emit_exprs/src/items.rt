//! Items, put together.

ghost use Rattle.std.specs.Prelude.{◌≡◌, [], ◌∷◌, ◌++◌, IfOk};
ghost use Rattle.gv_code.specs.declared.code.OperandKind.TheVariants.{Value as V};
ghost use Rattle.gv_code.specs.Pieces.{plain};
ghost use Rattle.gv_written.specs.Written.{load, store_items, values_on};

use gv_base::{Name, OutOfMemory};
use gv_code::{Instruction, Item, Items, Op, OperandKind};
use gv_core::{Const, Exit};
use std::alloc::Global;

/// The operands with a value on top.
pub fn value_on(alloc: Global, below: &[OperandKind]) -> Result<Items<OperandKind>, OutOfMemory>
    ensures { IfOk result (λ shape. shape ≡ V ∷ below.now) }
{
    let mut shape = Items::new(alloc);
    shape.push(OperandKind::Value)?;
    shape.append(Items::from_slice(alloc, below)?)?;
    Ok(shape)
}

// The operands with so many values on top.
fn values_on(
    alloc: Global,
    below: &[OperandKind],
    count: usize,
) -> Result<Items<OperandKind>, OutOfMemory>
    ensures { IfOk result (λ shape. shape ≡ values_on count below.now) }
{
    let mut shape = Items::from_slice(alloc, below)?;
    let mut left = count;
    while left > 0 {
        shape = value_on(alloc, shape.as_slice())?;
        left -= 1;
    }
    Ok(shape)
}

/// An instruction.
pub fn one(alloc: Global, below: &[OperandKind], op: Op) -> Result<Vec<Item>, OutOfMemory>
    ensures { IfOk result (λ items. items.items ≡ plain below.now op ∷ []) }
{
    let shape = Items::from_slice(alloc, below)?;
    let mut items = Vec::new(alloc);
    items.push(Item::Plain(Instruction { shape, op }))?;
    Ok(items)
}

// What leaves a value, and an instruction that takes it.
fn with(items: Vec<Item>, shape: Items<OperandKind>, op: Op) -> Result<Vec<Item>, OutOfMemory>
    ensures { IfOk result (λ all. all.items ≡ items.items ++ plain shape op ∷ []) }
{
    let mut items = items;
    items.push(Item::Plain(Instruction { shape, op }))?;
    Ok(items)
}

/// What leaves a value, and an instruction that finds it on top.
pub fn on_value(
    alloc: Global,
    below: &[OperandKind],
    value: Vec<Item>,
    op: Op,
) -> Result<Vec<Item>, OutOfMemory>
    ensures { IfOk result (λ all. all.items ≡ value.items ++ plain (V ∷ below.now) op ∷ []) }
{
    let shape = value_on(alloc, below)?;
    with(value, shape, op)
}

/// What leaves a value, and a way out with it.
pub fn leave(
    alloc: Global,
    below: &[OperandKind],
    value: Vec<Item>,
    exit: Exit,
) -> Result<Vec<Item>, OutOfMemory>
    ensures { IfOk result (λ all. all.items ≡ value.items ++ Item.Out (V ∷ below.now) exit ∷ []) }
{
    let shape = value_on(alloc, below)?;
    let mut items = value;
    items.push(Item::Out(shape, exit))?;
    Ok(items)
}

/// The instruction that puts the variable in a slot on the stack.
pub(crate) fn load(height: usize, slot: usize) -> Op
    ensures { result ≡ load height slot }
{
    if slot < height {
        Op::Load(slot)
    } else {
        Op::Push(Const::Null)
    }
}

/// What leaves a value, which is kept in the variable in a slot.
pub(crate) fn store(
    alloc: Global,
    height: usize,
    below: &[OperandKind],
    value: Vec<Item>,
    slot: usize,
) -> Result<Vec<Item>, OutOfMemory>
    ensures { IfOk result (λ all. all.items ≡ value.items ++ store_items height slot (V ∷ below.now)) }
{
    if slot < height {
        return on_value(alloc, below, value, Op::Store(slot));
    }
    Ok(value)
}

/// What leaves so many values, with which a method is called.
pub(crate) fn invoke(
    alloc: Global,
    below: &[OperandKind],
    values: Vec<Item>,
    name: Name,
    count: usize,
) -> Result<Vec<Item>, OutOfMemory>
    ensures { IfOk result (λ all. all.items ≡ values.items ++ plain (values_on count below.now) (Op.Invoke name count) ∷ []) }
{
    let shape = values_on(alloc, below, count)?;
    with(values, shape, Op::Invoke(name, count))
}

/// What leaves one value and what leaves another above it, and an instruction that finds both.
pub(crate) fn on_both(
    alloc: Global,
    below: &[OperandKind],
    first: Vec<Item>,
    second: Vec<Item>,
    op: Op,
) -> Result<Vec<Item>, OutOfMemory>
    ensures { IfOk result (λ all. all.items ≡ first.items ++ (second.items ++ plain (V ∷ V ∷ below.now) op ∷ [])) }
{
    let shape = value_on(alloc, below)?;
    let mut rest = on_value(alloc, shape.as_slice(), second, op)?;
    let mut items = first;
    items.append(&mut rest)?;
    Ok(items)
}
