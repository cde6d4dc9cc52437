ghost use Rattle.std.specs.Prelude.{◌≡◌, ◌<◌, [], length, Some, IfOk, OnOk, OnErr};
ghost use Rattle.gv_base.specs.Names.{name_of, text_of, with_name, accessor_text};

use crate::OutOfMemory;
use crate::accessors::{Accessors, put};
use crate::ids::Name;
use indexmap::IndexSet;
use std::alloc::Global;
use std::marker::Model;

/// The texts of names, each once. A name is its text's place.
#[derive(Drop)]
pub struct Names {
    texts: IndexSet<String>,
    /// Those of each name, so that `accessor` needs no search.
    accessors: Vec<Accessors>,
    alloc: Global,
}

impl Model for Names {
    ghost use Rattle.std.specs.Prelude.{◌≡◌, List, ℕ};
    ghost use Rattle.gv_base.specs.Accessors.{spelled, all_accessors};

    ghost Value = { List (List ℕ) };

    ghost view = { λ names. spelled names.texts.keys };

    ghost invariant = { λ names. names.accessors.items ≡ all_accessors (spelled names.texts.keys) };
}

impl Names {
    /// The empty table.
    pub fn new(alloc: Global) -> Names
        ensures { result ≡ [] }
    {
        Names {
            texts: IndexSet::new(alloc),
            accessors: Vec::new(alloc),
            alloc,
        }
    }

    /// The name of a text, which is put last where the table doesn't have it.
    pub fn intern(&mut self, text: &str) -> Result<Name, OutOfMemory>
        ensures name { IfOk result (λ name. name_of self.new text.now ≡ Some name) }
        ensures kept { OnOk result (self.new ≡ with_name self.old text.now) }
        ensures err { OnErr result (self.new ≡ self.old) }
    {
        if let Some(place) = self.texts.get_index_of(text) {
            return Ok(place);
        }
        put(self.alloc, &mut self.texts, &mut self.accessors, text)
    }

    /// The name of a text; `None` where the table doesn't have it.
    pub fn find(&self, text: &str) -> Option<Name>
        ensures { result ≡ name_of self.now text.now }
    {
        self.texts.get_index_of(text)
    }

    /// The text of a name; none for a name that the table doesn't have.
    pub fn text(&self, name: Name) -> &str
        ensures { result.now ≡ text_of self.now name }
    {
        match self.texts.get_index(name) {
            Some(text) => text.as_str(),
            None => "",
        }
    }

    /// The name of a property's getter, or of its setter where `write` is true; `None` where the
    /// table doesn't have it.
    pub fn accessor(&self, name: Name, write: bool) -> Option<Name>
        requires { name < length self.now }
        ensures { result ≡ name_of self.now (accessor_text write (text_of self.now name)) }
    {
        let accessors = self.accessors[name];
        if write {
            accessors.setter
        } else {
            accessors.getter
        }
    }

    /// A table with the same names and texts.
    pub fn copy(&self, alloc: Global) -> Result<Names, OutOfMemory>
        ensures { IfOk result (λ names. names ≡ self.now) }
    {
        let texts = self.texts.clone()?;
        let accessors = self.accessors.clone()?;
        Ok(Names {
            texts,
            accessors,
            alloc,
        })
    }
}
