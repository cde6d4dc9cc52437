ghost use Rattle.std.specs.Prelude.{◌≡◌, ◌++◌, [], ◌∷◌, length, not, take, IfOk, OnOk, if◌then◌else◌};
ghost use Rattle.gv_bodies.specs.Bodies.{holds};

use gv_base::{Name, OutOfMemory};
use indexmap::IndexSet;
use std::alloc::Global;
use std::marker::Model;

/// The names that are held, the oldest first.
#[derive(Drop)]
pub(crate) struct Held {
    names: IndexSet<Name>,
}

impl Model for Held {
    ghost use Rattle.std.specs.Prelude.{List, ℕ};

    ghost Value = { List ℕ };

    ghost view = { λ h. h.names.keys };
}

impl Held {
    pub(crate) fn new(alloc: Global) -> Held
        ensures { result ≡ [] }
    {
        Held {
            names: IndexSet::new(alloc),
        }
    }

    pub(crate) fn len(&self) -> usize
        ensures { result ≡ length self.now }
    {
        self.names.len()
    }

    /// Holds a name too; whether it is new.
    pub(crate) fn hold(&mut self, name: Name) -> Result<bool, OutOfMemory>
        ensures is_new { IfOk result (λ is_new. is_new ≡ not (holds self.old name)) }
        ensures held { OnOk result (self.new ≡ (if holds self.old name then self.old else self.old ++ name ∷ [])) }
    {
        let is_new = self.names.insert(name)?;
        Ok(is_new)
    }

    /// Holds so many names, the oldest ones, and no others.
    pub(crate) fn keep(&mut self, count: usize)
        ensures { self.new ≡ take count self.old }
    {
        self.names.truncate(count);
    }
}
