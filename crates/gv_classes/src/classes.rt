ghost use Rattle.std.specs.Prelude.{◌≡◌, ◌<◌, ◌≤◌, ◌∷◌, ◌++◌, [], length, slice_get, true, Some, map, fold, IfOk, IfSome, OnOk, OnErr};
ghost use Rattle.gv_classes.specs.BuiltIn.{rows, built_in_class, with_texts};
ghost use Rattle.gv_classes.specs.Classes as spec;

use crate::built_in::{TEXTS, table_of};
use crate::declared::Declared;
use crate::ids::{BUILT_IN, GSTRING, INTEGER, LONG, OBJECT, STRING};
use crate::table::Table;
use gv_base::{ClassId, Name, Names, OutOfMemory};
use std::alloc::Global;
use std::marker::Model;

/// The known classes: the built-in ones, and behind them those that were added.
#[derive(Drop)]
pub struct Classes {
    table: Table,
}

impl Model for Classes {
    ghost use Rattle.std.specs.Prelude.{List};
    ghost use Rattle.gv_classes.specs.declared.declared.Declared.{Declared as Class};
    ghost use Rattle.gv_classes.specs.Classes.{AreKnown};

    ghost Value = { List Class };

    ghost view = { λ classes. classes.table };

    ghost invariant = { λ classes. AreKnown classes.table };
}

impl Classes {
    /// The built-in classes, whose names are put into the table.
    #[tactic(auto, unfolding(crate::specs::BuiltIn::rows))]
    pub fn new(alloc: Global, names: &mut Names) -> Result<Classes, OutOfMemory>
        ensures classes { IfOk result (λ classes. classes ≡ map (built_in_class names.new) rows) }
        ensures names { OnOk result (names.new ≡ with_texts names.old rows) }
    {
        let table = table_of(alloc, names, &TEXTS)?;
        Ok(Classes { table })
    }

    /// Adds a class behind the others. A superclass of which no class has the name yet may come later.
    pub fn add(&mut self, class: Declared) -> Result<ClassId, OutOfMemory>
        requires { spec.AreRestsTyped class }
        ensures ok { IfOk result (λ id. id ≡ length self.old) }
        ensures within { IfOk result (λ id. id < length self.new) }
        ensures added { OnOk result (self.new ≡ self.old ++ class ∷ []) }
        ensures err { OnErr result (self.new ≡ self.old) }
        ensures built_in { BUILT_IN ≤ length self.old }
    {
        let id = self.table.len();
        self.table.push(class)?;
        Ok(id)
    }

    /// How many classes there are. The built-in ones are always there.
    pub fn len(&self) -> usize
        ensures len { result ≡ length self.now }
        ensures built_in { BUILT_IN ≤ length self.now }
    {
        self.table.len()
    }

    /// The first class of a name.
    pub fn named(&self, name: Name) -> Option<ClassId>
        ensures named { result ≡ spec.named self.now name }
        ensures within { IfSome result (λ class. class < length self.now) }
    {
        self.table.named(name)
    }

    /// What is declared of a class.
    pub fn get(&self, class: ClassId) -> &Declared
        requires { class < length self.now }
        ensures declared { slice_get self.now class ≡ Some result.now }
        ensures rests { spec.AreRestsTyped result.now }
    {
        self.table.get(class)
    }

    /// The superclass; Object is its own.
    pub fn above(&self, class: ClassId) -> ClassId
        requires { class < length self.now }
        ensures above { result ≡ spec.above self.now class }
        ensures own { class ≡ OBJECT → result ≡ OBJECT }
        ensures within { result < length self.now }
    {
        if !self.comes_up(class) {
            return OBJECT;
        }
        self.up(class)
    }

    /// Whether an instance of class `a` is one of class `b`.
    pub fn is_kind(&self, a: ClassId, b: ClassId) -> bool
        requires { a < length self.now }
        ensures { result ≡ spec.is_kind self.now a b }
    {
        if self.comes_up(a) {
            self.meets(a, b)
        } else {
            a == b || OBJECT == b
        }
    }

    /// Whether an argument of class `a` fits a parameter of type `b`.
    pub fn fits(&self, a: ClassId, b: ClassId) -> bool
        requires { a < length self.now }
        ensures { result ≡ spec.fits self.now a b }
    {
        if self.is_kind(a, b) {
            return true;
        }
        match b {
            LONG => self.is_kind(a, INTEGER),
            STRING => self.is_kind(a, GSTRING),
            _ => false,
        }
    }

    /// Whether a class, or one above it, declares a method of a name.
    pub fn declares(&self, class: ClassId, name: Name) -> bool
        requires { class < length self.now }
        ensures { result ≡ spec.declares self.now class name }
    {
        if self.comes_up(class) {
            self.inherits(class, name)
        } else {
            self.has_method(class, name) || self.has_method(OBJECT, name)
        }
    }

    /// The class of the name of the superclass, or Object where no class has it.
    fn up(&self, class: ClassId) -> ClassId
        requires { class < length self.now }
        ensures up { result ≡ spec.up self.now class }
        ensures own { class ≡ OBJECT → result ≡ OBJECT }
        ensures within { result < length self.now }
    {
        match self.table.named(self.table.get(class).above) {
            Some(above) => above,
            None => OBJECT,
        }
    }

    /// Whether going up comes to Object.
    fn comes_up(&self, mut class: ClassId) -> bool
        requires { class < length self.now }
        ensures { result ≡ spec.comes_up (length self.now) self.now class }
    {
        for step in 0..self.len() {
            if class == OBJECT {
                return true;
            }
            class = self.up(class);
        }
        class == OBJECT
    }

    /// `is_kind` of a class from which going up comes to Object.
    fn meets(&self, mut class: ClassId, other: ClassId) -> bool
        requires within { class < length self.now }
        requires comes_up { spec.comes_up (length self.now) self.now class ≡ true }
        ensures { result ≡ spec.is_kind self.now class other }
    {
        for step in 0..self.len() {
            if class == other {
                return true;
            }
            if class == OBJECT {
                return false;
            }
            class = self.up(class);
        }
        class == other
    }

    /// `declares` of a class from which going up comes to Object.
    fn inherits(&self, mut class: ClassId, name: Name) -> bool
        requires within { class < length self.now }
        requires comes_up { spec.comes_up (length self.now) self.now class ≡ true }
        ensures { result ≡ spec.declares self.now class name }
    {
        for step in 0..self.len() {
            if self.has_method(class, name) {
                return true;
            }
            if class == OBJECT {
                return false;
            }
            class = self.up(class);
        }
        self.has_method(class, name)
    }

    /// Whether a class declares a method of a name itself.
    fn has_method(&self, class: ClassId, name: Name) -> bool
        requires { class < length self.now }
        ensures { result ≡ spec.has_method name (slice_get self.now class) }
    {
        self.get(class).has_method(name)
    }
}
