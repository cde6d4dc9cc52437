use gv_base::Value;

/// How a run ends.
#[derive(Clone, Copy, Debug, PartialEq, Eq)]
pub enum End {
    /// The script gives a value.
    Value(Value),
    /// An exception that nothing caught.
    Uncaught(Value),
    /// A tick was wanted, and none was left.
    Ticks,
    /// Cells were wanted, and fewer were left.
    Cells,
    /// A body was to stand deeper than any may.
    Depth,
}

/// Why a machine stands still.
#[derive(Clone, Copy, Debug, PartialEq, Eq)]
pub enum Pause {
    /// There is output to take away. This doesn't come yet: output is kept to the end.
    Filled,
    /// The run has ended.
    Ended(End),
}
