//! Where annotations may stand.

ghost use Rattle.std.specs.Prelude.{◌≡◌};
ghost use Rattle.gv_tops.specs.Transforms as spec;

use crate::transform::Transform;
use gv_tree::Modifiers;

/// What an annotation stands on.
#[derive(Clone, Copy, Debug, PartialEq, Eq)]
pub(crate) enum Target {
    Class,
    /// A declaration of properties in a class, which isn't static.
    Property,
    /// A declaration at the top.
    Declaration,
    /// Another declaration in a class, a method or a constructor.
    Other,
}

/// Whether a declaration in a class declares properties: it has no access modifier, and may be static.
pub(crate) fn declares_properties(modifiers: Modifiers) -> bool
    ensures { result ≡ spec.declares_properties modifiers }
{
    !(modifiers.is_public || modifiers.is_private || modifiers.is_protected)
}

/// What the annotations of a declaration in a class stand on.
pub(crate) fn target_of(modifiers: Modifiers) -> Target
    ensures { result ≡ spec.target_of modifiers }
{
    if declares_properties(modifiers) && !modifiers.is_static {
        Target::Property
    } else {
        Target::Other
    }
}

/// Whether an annotation may stand there.
pub(crate) fn may_stand(transform: Transform, target: Target) -> bool
    ensures { result ≡ spec.may_stand transform target }
{
    match (transform, target) {
        (Transform::ToString, Target::Class) => true,
        (Transform::EqualsAndHashCode, Target::Class) => true,
        (Transform::TupleConstructor, Target::Class) => true,
        (Transform::Singleton, Target::Class) => true,
        (Transform::Delegate, Target::Property) => true,
        (Transform::Lazy, Target::Property) => true,
        (Transform::Field, Target::Declaration) => true,
        _ => false,
    }
}
