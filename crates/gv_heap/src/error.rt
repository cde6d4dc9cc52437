use gv_base::OutOfMemory;

/// Why a heap didn't grow.
#[derive(Clone, Copy, Debug, PartialEq, Eq, thiserror::Error)]
pub enum HeapError {
    /// The price exceeds the cells left.
    #[error("cells are spent")]
    CellsSpent,
    #[error("out of memory")]
    OutOfMemory,
}

impl From<OutOfMemory> for HeapError {
    ghost use Rattle.std.specs.Prelude.{◌≡◌};
    ghost use Rattle.gv_heap.specs.declared.error.HeapError.TheVariants.{OutOfMemory};

    ghost from_gives = { λ _ e. e ≡ OutOfMemory };

    fn from(_error: OutOfMemory) -> HeapError {
        HeapError::OutOfMemory
    }
}
