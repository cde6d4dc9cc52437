//! The numbers of the built-in classes. Those of the scripts follow.

ghost use Rattle.std.specs.Prelude.{◌≡◌, ◌<◌, slice_get, Some};
ghost use Rattle.gv_base.specs.Exceptions.{name_of};
ghost use Rattle.gv_classes.specs.BuiltIn as spec;

use gv_base::{ClassId, ExceptionKind};

pub const OBJECT: ClassId = 0;

pub const NUMBER: ClassId = 1;

pub const INTEGER: ClassId = 2;

pub const LONG: ClassId = 3;

pub const BOOLEAN: ClassId = 4;

pub const STRING: ClassId = 5;

pub const GSTRING: ClassId = 6;

pub const LIST: ClassId = 7;

pub const RANGE: ClassId = 8;

pub const MAP: ClassId = 9;

pub const CLOSURE: ClassId = 10;

pub const CLASS: ClassId = 11;

pub const ENTRY: ClassId = 12;

pub const META_CLASS: ClassId = 13;

pub const META_MEMBER: ClassId = 14;

pub const META_METHOD: ClassId = 15;

pub const EXPANDO_META_CLASS: ClassId = 16;
/// The exception classes follow from here on, in the order of `ExceptionKind`.
pub const THROWABLE: ClassId = 17;
/// How many built-in classes there are.
pub const BUILT_IN: usize = 37;

/// The number of an exception class.
pub fn exception_class(kind: ExceptionKind) -> ClassId
    ensures class { result ≡ spec.exception_class kind }
    ensures within { result < BUILT_IN }
    ensures name { slice_get spec.built_in_names result ≡ Some (name_of kind) }
{
    THROWABLE + place_of(kind)
}

fn place_of(kind: ExceptionKind) -> usize
    ensures { result ≡ spec.place_of kind }
{
    kind as usize
}
