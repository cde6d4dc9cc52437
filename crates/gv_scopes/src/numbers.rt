ghost use Rattle.std.specs.Prelude.{◌≡◌, [], length, not, slice_get, take, IfOk, OnOk};
ghost use Rattle.gv_scopes.specs.Numbers.{is_there, with_number, place_of};

use gv_base::OutOfMemory;
use indexmap::IndexSet;
use std::alloc::Global;
use std::marker::Model;

/// Numbers, each once, in the order in which they came.
#[derive(Drop)]
pub struct Numbers {
    numbers: IndexSet<usize>,
}

impl Model for Numbers {
    ghost use Rattle.std.specs.Prelude.{List, ℕ};

    ghost Value = { List ℕ };

    ghost view = { λ n. n.numbers.keys };
}

impl Numbers {
    pub(crate) fn new(alloc: Global) -> Numbers
        ensures { result ≡ [] }
    {
        Numbers {
            numbers: IndexSet::new(alloc),
        }
    }

    pub fn len(&self) -> usize
        ensures { result ≡ length self.now }
    {
        self.numbers.len()
    }

    /// The number at a place; None behind the last one.
    pub fn get(&self, at: usize) -> Option<usize>
        ensures { result ≡ slice_get self.now at }
    {
        self.numbers.get_index(at).copied()
    }

    pub fn contains(&self, number: usize) -> bool
        ensures { result ≡ is_there self.now number }
    {
        self.numbers.contains(&number)
    }

    /// The place of a number.
    pub fn place_of(&self, number: usize) -> Option<usize>
        ensures { result ≡ place_of self.now number }
    {
        self.numbers.get_index_of(&number)
    }

    /// Puts a number behind the others; whether it is new.
    pub(crate) fn put(&mut self, number: usize) -> Result<bool, OutOfMemory>
        ensures is_new { IfOk result (λ is_new. is_new ≡ not (is_there self.old number)) }
        ensures put { OnOk result (self.new ≡ with_number self.old number) }
    {
        let is_new = self.numbers.insert(number)?;
        Ok(is_new)
    }

    /// Keeps so many, the first ones, and no others.
    pub(crate) fn keep(&mut self, count: usize)
        ensures { self.new ≡ take count self.old }
    {
        self.numbers.truncate(count);
    }
}
