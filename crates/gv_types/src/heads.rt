//! What a class extends and implements.

ghost use Rattle.std.specs.Prelude.{◌≡◌, false};
ghost use Rattle.std.specs.Option.{option_map_or};
ghost use Rattle.gv_classes.specs.Classes.{named};
ghost use Rattle.gv_types.specs.Types as spec;

use crate::names::name_refused;
use gv_base::{ClassId, Name, Refusal};
use gv_classes::{BUILT_IN, Classes, OBJECT, THROWABLE};
use gv_tree::{Ident, Top};

/// The script's own class comes right behind the built-in ones.
const SCRIPT_CLASS: ClassId = BUILT_IN;

/// Whether a class may be extended.
fn may_extend(class: ClassId) -> bool
    ensures { result ≡ spec.may_extend class }
{
    class == OBJECT || (THROWABLE <= class && class != SCRIPT_CLASS)
}

/// Whether this is the name of a class that may be extended.
fn may_extend_named(classes: &Classes, name: Name) -> bool
    ensures { result ≡ option_map_or spec.may_extend (named classes.now name) false }
{
    match classes.named(name) {
        Some(class) => may_extend(class),
        None => false,
    }
}

fn superclass_refused(
    classes: &Classes,
    superclass: Option<Ident>,
    first: Option<Refusal>,
) -> Option<Refusal>
    ensures { result ≡ spec.superclass_refused classes.now superclass first }
{
    match superclass {
        Some(ident) => name_refused(may_extend_named(classes, ident.name), ident, first),
        None => first,
    }
}

fn interface_refused(
    interceptable: Name,
    interface: Option<Ident>,
    first: Option<Refusal>,
) -> Option<Refusal>
    ensures { result ≡ spec.interface_refused interceptable interface first }
{
    match interface {
        Some(ident) => name_refused(ident.name == interceptable, ident, first),
        None => first,
    }
}

fn top_refused(
    classes: &Classes,
    interceptable: Name,
    top: &Top,
    first: Option<Refusal>,
) -> Option<Refusal>
    ensures { result ≡ spec.top_refused classes.now interceptable top.now first }
{
    match top {
        Top::Class(class) => {
            let so_far = superclass_refused(classes, class.superclass, first);
            interface_refused(interceptable, class.interface, so_far)
        }
        _ => first,
    }
}

/// The first refusal, after those of the heads of classes.
pub(crate) fn heads_refused(
    classes: &Classes,
    interceptable: Name,
    tops: &[Top],
    first: Option<Refusal>,
) -> Option<Refusal>
    ensures { result ≡ spec.heads_refused classes.now interceptable tops.now first }
{
    let mut so_far = first;
    for top in tops {
        so_far = top_refused(classes, interceptable, top, so_far);
    }
    so_far
}
