ghost use Rattle.std.specs.Prelude.{◌≡◌, ◌<◌, ◌≤◌, [], MatchResult};

use crate::error::HeapError;
use crate::object::Object;
use gv_base::Value;
use std::alloc::Global;
use std::marker::Model;

/// The objects and places of a run, by their numbers, and the cells that are left.
#[derive(Drop)]
pub struct Heap {
    pub(crate) objects: Vec<Object>,
    pub(crate) places: Vec<Value>,
    pub(crate) cells: u64,
    pub(crate) alloc: Global,
}

impl Model for Heap {
    ghost use Rattle.gv_heap.specs.Heap.{HeapState};

    ghost Value = { HeapState };

    ghost view = { λ h. record { objects = h.objects.items; places = h.places.items; cells = h.cells } };
}

impl Heap {
    ghost use Rattle.gv_heap.specs.declared.error.HeapError.TheVariants.{CellsSpent};

    /// A heap without objects, and the cells that it may take.
    pub fn new(alloc: Global, cells: u64) -> Heap
        ensures { result ≡ record { objects = []; places = []; cells = cells } }
    {
        Heap {
            objects: Vec::new(alloc),
            places: Vec::new(alloc),
            cells,
            alloc,
        }
    }

    /// How many cells are left.
    pub fn cells_left(&self) -> u64
        ensures { result ≡ self.now.cells }
    {
        self.cells
    }

    /// Refuses a price that exceeds the cells left.
    pub(crate) fn afford(&self, price: u64) -> Result<(), HeapError>
        ensures { MatchResult result (λ _. price ≤ self.now.cells) (λ error. (error ≡ CellsSpent) × (self.now.cells < price)) }
    {
        if self.cells < price {
            return Err(HeapError::CellsSpent);
        }
        Ok(())
    }
}
