//! Instructions, handlers and bodies.

use gv_base::{BodyId, ClassId, Name};
use gv_core::{Const, Exit, Order};
use sqlite_items::Items;

/// What lies on the stack.
#[derive(Clone, Copy, Debug, PartialEq, Eq)]
pub enum OperandKind {
    Value,
    /// The number of a way out, which waits for the last part of a `try`.
    Way,
}

/// What an instruction does. Operands are on the stack, the last on top.
#[derive(Clone, Copy, Debug, PartialEq, Eq)]
pub enum Op {
    /// Puts a value on the stack.
    Push(Const),
    /// Puts the value of the variable in a slot on the stack.
    Load(usize),
    /// Sets the variable in a slot to the value on top, which stays.
    Store(usize),
    /// Takes the value on top into a new variable, which is the one in this slot.
    Declare(usize),
    /// The same for a variable that closures share.
    DeclareShared(usize),
    /// Calls a method by its name on the lowest of so many operands, with the others as arguments.
    Invoke(Name, usize),
    /// Whether the value on top is of an order.
    Ordered(Order),
    /// Whether the two values on top are equal.
    Equal,
    /// Whether the value on top is false.
    Not,
    /// Gives up the value on top.
    Discard,
    /// Takes a tick.
    Tick,
    /// Goes on so many instructions behind the next one.
    JumpOn(usize),
    /// Goes back so many instructions.
    JumpBack(usize),
    /// Takes the value on top, and goes on behind the next instructions where it is false.
    JumpUnless(usize),
    /// Takes the value on top, keeps so many of the lowest operands and the value, and goes on behind the next instructions.
    Leave(usize, usize),
    /// Ends the body with the value on top.
    Finish,
}

/// An instruction, with the kinds of the operands on the stack before it, the top first.
#[derive(Debug, Drop)]
pub struct Instruction {
    pub shape: Items<OperandKind>,
    pub op: Op,
}

/// Where an exception goes, for the instructions from one place up to before another.
#[derive(Clone, Copy, Debug, PartialEq, Eq)]
pub struct Handler {
    pub from: usize,
    pub to: usize,
    /// The exceptions that it takes.
    pub class: ClassId,
    pub target: usize,
    /// How many of the lowest operands it keeps.
    pub kept: usize,
}

/// The code of a body.
#[derive(Debug, Drop)]
pub struct Body {
    pub parameters: usize,
    pub captured: usize,
    /// The innermost first.
    pub handlers: Items<Handler>,
    pub steps: Items<Instruction>,
}

/// The code of a unit: its bodies by their numbers, the body of each method, and the body that starts the run.
#[derive(Debug, Drop)]
pub struct Code {
    pub bodies: Items<Body>,
    pub methods: Items<BodyId>,
    pub start: BodyId,
}
