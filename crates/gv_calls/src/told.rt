use gv_base::{BodyId, PlaceId, Value};
use gv_meaning::Why;
use sqlite_items::Items;

/// How a step ends that is no jump. What it leaves is in the world.
#[derive(Clone, Copy, Debug, PartialEq, Eq)]
pub enum Told {
    /// It gives a value.
    Got(Value),
    /// It throws the object of an exception.
    Threw(Value),
    /// What it needs is spent, and the run ends.
    Stopped(Why),
}

/// What a call runs.
#[derive(Debug, Drop)]
pub enum Chosen {
    /// A body, with the places of its captured variables and its arguments.
    Enter(BodyId, Items<PlaceId>, Items<Value>),
    /// Nothing more: the call has ended.
    Else(Told),
}
