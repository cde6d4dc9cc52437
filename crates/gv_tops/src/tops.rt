//! The refusals of a script.

ghost use Rattle.std.specs.Prelude.{◌≡◌};
ghost use Rattle.gv_tops.specs.Tops as spec;

use crate::annotations::annotations_refused;
use crate::imports::{Imported, import_refused};
use crate::known::Known;
use crate::members::{class_refused, method_refused};
use crate::target::Target;
use gv_base::Refusal;
use gv_tree::{Script, Top};

/// The first refusal of the script's imports, annotations and members, or the one found before where that stands first.
pub fn first_of_tops(known: &Known, script: &Script, first: Option<Refusal>) -> Option<Refusal>
    ensures { result ≡ spec.tops_refused known.now script.now first }
{
    let imported = Imported::of(known, script.tops.as_slice());
    each_top_refused(known, imported, script.tops.as_slice(), first)
}

fn each_top_refused(
    known: &Known,
    imported: Imported,
    tops: &[Top],
    first: Option<Refusal>,
) -> Option<Refusal>
    ensures { result ≡ spec.each (spec.top_refused known.now imported) tops.now first }
{
    let mut so_far = first;
    for top in tops {
        so_far = top_refused(known, imported, top, so_far);
    }
    so_far
}

fn top_refused(
    known: &Known,
    imported: Imported,
    top: &Top,
    first: Option<Refusal>,
) -> Option<Refusal>
    ensures { result ≡ spec.top_refused known.now imported top.now first }
{
    match top {
        Top::Import(import) => import_refused(known, import, first),
        Top::Class(class) => class_refused(known, imported, class, first),
        Top::Method(method) => method_refused(known, imported, method, first),
        Top::Decl(annotations, _) => annotations_refused(
            known,
            imported,
            Target::Declaration,
            annotations.as_slice(),
            first,
        ),
        Top::Stmt(_) => first,
    }
}
