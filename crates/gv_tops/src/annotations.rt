//! The refusals of annotations.

ghost use Rattle.std.specs.Prelude.{◌≡◌};
ghost use Rattle.gv_tops.specs.Tops as spec;
ghost use Rattle.gv_tops.specs.Transforms as transforms;

use crate::imports::Imported;
use crate::known::Known;
use crate::noted::noted;
use crate::target::{Target, may_stand};
use crate::transform::{Transform, named, named_in_full};
use gv_base::{Place, Refusal, RefusalKind};
use gv_tree::{Annotation, Ident};

/// The annotation that stands behind an `@`, if it is known.
pub(crate) fn annotation_of(known: &Known, imported: Imported, path: &[Ident]) -> Option<Transform>
    ensures { result ≡ transforms.annotation_of known.now imported path.now }
{
    match path {
        [name] => if_imported(imported, named(known, name.name)),
        _ => named_in_full(known, path),
    }
}

fn if_imported(imported: Imported, transform: Option<Transform>) -> Option<Transform>
    ensures { result ≡ transforms.if_imported imported transform }
{
    match transform {
        Some(transform) => {
            if imported.has(transform) {
                Some(transform)
            } else {
                None
            }
        }
        None => None,
    }
}

fn use_refused(
    transform: Option<Transform>,
    target: Target,
    place: Place,
    first: Option<Refusal>,
) -> Option<Refusal>
    ensures { result ≡ spec.use_refused transform target place first }
{
    match transform {
        Some(transform) => {
            if may_stand(transform, target) {
                first
            } else {
                noted(RefusalKind::AnnotationOutOfPlace, place, first)
            }
        }
        None => noted(RefusalKind::UnknownClass, place, first),
    }
}

/// The first refusal, after that of an annotation that stands on this.
pub(crate) fn annotation_refused(
    known: &Known,
    imported: Imported,
    target: Target,
    annotation: &Annotation,
    first: Option<Refusal>,
) -> Option<Refusal>
    ensures { result ≡ spec.annotation_refused known.now imported target annotation.now first }
{
    let transform = annotation_of(known, imported, annotation.path.as_slice());
    use_refused(transform, target, annotation.place, first)
}

/// The first refusal, after those of all annotations that stand on this.
pub(crate) fn annotations_refused(
    known: &Known,
    imported: Imported,
    target: Target,
    annotations: &[Annotation],
    first: Option<Refusal>,
) -> Option<Refusal>
    ensures { result ≡ spec.annotations_refused known.now imported target annotations.now first }
{
    let mut so_far = first;
    for annotation in annotations {
        so_far = annotation_refused(known, imported, target, annotation, so_far);
    }
    so_far
}
