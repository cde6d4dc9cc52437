ghost use Rattle.std.specs.Prelude.{◌≡◌, ◌<◌, ◌≤◌, [], ◌∷◌, ◌++◌, length, insert, remove, slice_get, slice_set, OnOk, OnErr, Some};

use gv_base::{OutOfMemory, Value};
use std::marker::Model;

/// The elements of a list, which contracts see as their list.
#[derive(Debug, Drop)]
pub struct Elements {
    items: Vec<Value>,
}

impl Model for Elements {
    ghost use Rattle.std.specs.Prelude.{List};
    ghost use Rattle.gv_base.specs.declared.value.Value.{Value as Element};

    ghost Value = { List Element };

    ghost view = { λ e. e.items.items };
}

impl Elements {
    /// The elements themselves.
    pub fn as_slice(&self) -> &[Value]
        ensures { result.now ≡ self.now }
    {
        self.items.as_slice()
    }

    pub(crate) fn new(items: Vec<Value>) -> Elements
        ensures { result ≡ items.items }
    {
        Elements { items }
    }

    pub(crate) fn push(&mut self, item: Value) -> Result<(), OutOfMemory>
        ensures ok { OnOk result (self.new ≡ self.old ++ item ∷ []) }
        ensures err { OnErr result (self.new ≡ self.old) }
    {
        self.items.push(item)?;
        Ok(())
    }

    pub(crate) fn insert(&mut self, at: usize, item: Value) -> Result<(), OutOfMemory>
        requires { at ≤ length self.old }
        ensures ok { OnOk result (self.new ≡ insert self.old at item) }
        ensures err { OnErr result (self.new ≡ self.old) }
    {
        self.items.insert(at, item)?;
        Ok(())
    }

    pub(crate) fn set(&mut self, at: usize, item: Value)
        requires { at < length self.old }
        ensures { self.new ≡ slice_set self.old at item }
    {
        self.items[at] = item;
    }

    pub(crate) fn remove(&mut self, at: usize) -> Value
        requires { at < length self.old }
        ensures item { slice_get self.old at ≡ Some result }
        ensures rest { self.new ≡ remove self.old at }
    {
        self.items.remove(at)
    }

    pub(crate) fn clear(&mut self)
        ensures { self.new ≡ [] }
    {
        self.items.clear();
    }
}
