/// What a run may spend. Each is at least 1, and at most the constant of its name.
#[derive(Clone, Copy, Debug, PartialEq, Eq)]
pub struct Limits {
    /// Steps: calls, constructions, loop turns, reads and writes of properties.
    pub ticks: u64,
    /// Memory, in elements: objects, their elements and fields, eight bytes of text.
    pub cells: u64,
    /// How deep script bodies may stand in one another.
    pub depth: u32,
}

impl Limits {
    /// The most ticks that a run may be given.
    pub const TICKS: u64 = 1_000_000_000_000;

    /// The most cells that a run may be given.
    pub const CELLS: u64 = 64_000_000;

    /// The most depth that a run may be given.
    pub const DEPTH: u32 = 100_000;
}
