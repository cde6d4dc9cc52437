use crate::output::Output;
use gv_base::{Name, Names, ObjId, Value};
use gv_classes::Classes;
use gv_heap::Heap;
use sqlite_items::Items;

/// What a run changes and asks.
#[derive(Drop)]
pub struct World {
    pub names: Names,
    pub classes: Classes,
    /// The objects, the places of shared variables, and the cells left.
    pub heap: Heap,
    /// The string of each literal's text.
    pub literals: Items<(Name, ObjId)>,
    /// The object of the script.
    pub script: ObjId,
    /// How many instances of script classes were made.
    pub instances: u64,
    /// What was printed and isn't taken away yet.
    pub output: Output,
    /// How many ticks are left.
    pub ticks: u64,
    /// How deep bodies may stand in one another when the run begins.
    pub depth: u32,
}

/// What was spent.
#[derive(Clone, Copy, Debug, PartialEq, Eq)]
pub enum Why {
    Ticks,
    Cells,
    Depth,
}

/// What a variable is kept in: its value, or the number of a place that closures share.
#[derive(Clone, Copy, Debug, PartialEq, Eq)]
pub enum Cell {
    Own(Value),
    Shared(usize),
}
