ghost use Rattle.std.specs.Prelude.{◌≡◌};

use crate::known::Known;
use gv_base::Names;
use gv_classes::Classes;
use gv_scopes::Resolved;
use gv_tree::Script;
use std::alloc::Global;

/// The scripts of all files with the names of their tokens, and what is known of them behind a phase.
#[derive(Drop)]
pub struct Unit<S> {
    pub(crate) alloc: Global,
    pub(crate) names: Names,
    pub(crate) scripts: Vec<Script>,
    pub(crate) state: S,
}

/// Behind parsing: their trees.
#[derive(Drop)]
pub struct Parsed {}

/// Behind conversion: trees with accessors, and the classes.
#[derive(Drop)]
pub struct Converted {
    pub(crate) known: Known,
    pub(crate) classes: Classes,
}

/// Behind semantic analysis: nothing of them is refused.
#[derive(Drop)]
pub struct Analysed {
    pub(crate) known: Known,
    pub(crate) classes: Classes,
}

/// Behind canonicalization: what their names mean.
#[derive(Drop)]
pub struct Canonical {
    pub(crate) classes: Classes,
    pub(crate) resolved: Vec<Resolved>,
}

impl Unit<Parsed> {
    /// The trees of files 0, 1 and so on, with the names of their tokens.
    pub fn new(alloc: Global, scripts: Vec<Script>, names: Names) -> Unit<Parsed>
        ensures scripts { result.scripts ≡ scripts }
        ensures names { result.names ≡ names }
    {
        Unit {
            alloc,
            names,
            scripts,
            state: Parsed {},
        }
    }
}

impl<S> Unit<S> {
    /// The trees of the files, in order.
    pub fn trees(&self) -> &[Script]
        ensures { result.now ≡ self.now.scripts.items }
    {
        self.scripts.as_slice()
    }

    pub fn names(&self) -> &Names
        ensures { result.now ≡ self.now.names }
    {
        &self.names
    }
}

impl Unit<Canonical> {
    pub fn classes(&self) -> &Classes
        ensures { result.now ≡ self.now.state.classes }
    {
        &self.state.classes
    }

    /// What the names of each file's script mean.
    pub fn resolved(&self) -> &[Resolved]
        ensures { result.now ≡ self.now.state.resolved.items }
    {
        self.state.resolved.as_slice()
    }
}
