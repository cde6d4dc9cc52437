use crate::world::Cell;
use gv_base::Value;
use gv_code::Stack;
use sqlite_items::Items;

/// A body that waits for an answer: its number, the place of the instruction that waits, its operands and its variables.
#[derive(Debug, Drop)]
pub struct Frame {
    pub body: usize,
    pub at: usize,
    pub stack: Stack<Value>,
    pub slots: Items<Cell>,
}
