//! What a script imports.

ghost use Rattle.std.specs.Prelude.{◌≡◌};
ghost use Rattle.gv_tops.specs.Tops as refused;
ghost use Rattle.gv_tops.specs.Transforms as spec;

use crate::known::Known;
use crate::noted::noted;
use crate::transform::{Transform, is_package, named_in_full};
use gv_base::{Refusal, RefusalKind};
use gv_tree::{Import, Top};

/// What the imports of a script make known: all of `groovy.transform`, and each of its annotations by name.
#[derive(Clone, Copy, Debug, PartialEq, Eq)]
pub(crate) struct Imported {
    pub(crate) all: bool,
    pub(crate) to_string: bool,
    pub(crate) equals_and_hash_code: bool,
    pub(crate) tuple_constructor: bool,
    pub(crate) field: bool,
}

impl Imported {
    /// What these imports make known, read from left to right.
    pub(crate) fn of(known: &Known, tops: &[Top]) -> Imported
        ensures { result ≡ spec.imported_of known.now tops.now }
    {
        let mut imported = Imported::nothing();
        for top in tops {
            imported = imported.with_top(known, top);
        }
        imported
    }

    /// Nothing is imported.
    pub(crate) fn nothing() -> Imported
        ensures { result ≡ spec.nothing }
    {
        Imported {
            all: false,
            to_string: false,
            equals_and_hash_code: false,
            tuple_constructor: false,
            field: false,
        }
    }

    fn with_top(self, known: &Known, top: &Top) -> Imported
        ensures { result ≡ spec.with_top known.now top.now self }
    {
        match top {
            Top::Import(import) => self.with_import(known, import),
            _ => self,
        }
    }

    /// What is imported with one import more.
    pub(crate) fn with_import(self, known: &Known, import: &Import) -> Imported
        ensures { result ≡ spec.with_import known.now import.now self }
    {
        if import.is_all {
            if is_package(known, known.transform, import.path.as_slice()) {
                Imported { all: true, ..self }
            } else {
                self
            }
        } else {
            self.with_one(named_in_full(known, import.path.as_slice()))
        }
    }

    fn with_one(self, transform: Option<Transform>) -> Imported
        ensures { result ≡ spec.with_one transform self }
    {
        match transform {
            Some(Transform::ToString) => Imported {
                to_string: true,
                ..self
            },
            Some(Transform::EqualsAndHashCode) => Imported {
                equals_and_hash_code: true,
                ..self
            },
            Some(Transform::TupleConstructor) => Imported {
                tuple_constructor: true,
                ..self
            },
            Some(Transform::Field) => Imported {
                field: true,
                ..self
            },
            _ => self,
        }
    }

    /// Whether an annotation is known by its name alone.
    pub(crate) fn has(self, transform: Transform) -> bool
        ensures { result ≡ spec.is_imported self transform }
    {
        match transform {
            Transform::ToString => self.all || self.to_string,
            Transform::EqualsAndHashCode => self.all || self.equals_and_hash_code,
            Transform::TupleConstructor => self.all || self.tuple_constructor,
            Transform::Field => self.all || self.field,
            _ => true,
        }
    }
}

fn is_in_profile(known: &Known, import: &Import) -> bool
    ensures { result ≡ spec.is_in_profile known.now import.now }
{
    let path = import.path.as_slice();
    if import.is_all {
        is_package(known, known.transform, path) || is_package(known, known.lang, path)
    } else {
        named_in_full(known, path).is_some()
    }
}

/// The first refusal, after that of an import.
pub(crate) fn import_refused(
    known: &Known,
    import: &Import,
    first: Option<Refusal>,
) -> Option<Refusal>
    ensures { result ≡ refused.import_refused known.now import.now first }
{
    if is_in_profile(known, import) {
        first
    } else {
        noted(RefusalKind::ImportOutsideProfile, import.place, first)
    }
}
