//! What a run holds.

use gv_base::Value;
use gv_calls::Told;
use gv_code::Stack;
use gv_meaning::{Cell, Frame, World};
use sqlite_items::Items;

/// A body that runs: its number, the place of its instruction, its operands and its variables.
#[derive(Debug, Drop)]
pub struct Running {
    pub body: usize,
    pub at: usize,
    pub stack: Stack<Value>,
    pub slots: Items<Cell>,
}

/// What happens now.
#[derive(Debug, Drop)]
pub enum Mode {
    At(Running),
    Over(Told),
}

/// All but what runs now: the bodies that wait, how much deeper bodies may stand in one another, and the world.
#[derive(Drop)]
pub struct Control {
    pub frames: Stack<Frame>,
    pub depth: u64,
    pub world: World,
}
