//! The annotations of the profile, by their names.

ghost use Rattle.std.specs.Prelude.{◌≡◌};
ghost use Rattle.gv_tops.specs.Transforms as spec;

use crate::known::Known;
use gv_base::Name;
use gv_tree::Ident;

/// An annotation of the profile.
#[derive(Clone, Copy, Debug, PartialEq, Eq)]
pub(crate) enum Transform {
    ToString,
    EqualsAndHashCode,
    TupleConstructor,
    Field,
    Delegate,
    Singleton,
    Lazy,
}

/// The annotation of a name.
pub(crate) fn named(known: &Known, name: Name) -> Option<Transform>
    ensures { result ≡ spec.named known.now name }
{
    if name == known.to_string {
        Some(Transform::ToString)
    } else if name == known.equals_and_hash_code {
        Some(Transform::EqualsAndHashCode)
    } else if name == known.tuple_constructor {
        Some(Transform::TupleConstructor)
    } else if name == known.field {
        Some(Transform::Field)
    } else if name == known.delegate {
        Some(Transform::Delegate)
    } else if name == known.singleton {
        Some(Transform::Singleton)
    } else if name == known.lazy {
        Some(Transform::Lazy)
    } else {
        None
    }
}

fn package_of(known: &Known, transform: Transform) -> Name
    ensures { result ≡ spec.package_of known.now transform }
{
    match transform {
        Transform::ToString => known.transform,
        Transform::EqualsAndHashCode => known.transform,
        Transform::TupleConstructor => known.transform,
        Transform::Field => known.transform,
        Transform::Delegate => known.lang,
        Transform::Singleton => known.lang,
        Transform::Lazy => known.lang,
    }
}

fn if_of(known: &Known, within: Name, transform: Option<Transform>) -> Option<Transform>
    ensures { result ≡ spec.if_of known.now within transform }
{
    match transform {
        Some(transform) => {
            if within == package_of(known, transform) {
                Some(transform)
            } else {
                None
            }
        }
        None => None,
    }
}

/// The annotation that is named with its package.
pub(crate) fn named_in_full(known: &Known, path: &[Ident]) -> Option<Transform>
    ensures { result ≡ spec.named_in_full known.now path.now }
{
    match path {
        [root, within, name] => {
            if root.name == known.groovy {
                if_of(known, within.name, named(known, name.name))
            } else {
                None
            }
        }
        _ => None,
    }
}

/// Whether the names between the dots are those of a package of `groovy`.
pub(crate) fn is_package(known: &Known, name: Name, path: &[Ident]) -> bool
    ensures { result ≡ spec.is_package known.now name path.now }
{
    match path {
        [root, within] => root.name == known.groovy && within.name == name,
        _ => false,
    }
}
