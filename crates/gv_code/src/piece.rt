//! What code is put together from.

use crate::code::{Instruction, OperandKind};
use gv_core::Exit;
use sqlite_items::Items;

/// An instruction, or a way out that an enclosing form still decides.
#[derive(Debug, Drop)]
pub enum Item {
    Plain(Instruction),
    /// The kinds of the operands before it, of which its value is the top.
    Out(Items<OperandKind>, Exit),
}

/// How an enclosing form decides the ways out of its body, with the count of operands below it.
#[derive(Clone, Copy, Debug, PartialEq, Eq)]
pub enum Ways {
    Loop(usize),
}
