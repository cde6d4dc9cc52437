ghost use Rattle.std.specs.Prelude.{◌≡◌};
ghost use Rattle.gv_loose.specs.Loose as spec;

use crate::places::stmt_first;
use gv_base::{Place, Refusal, RefusalKind};
use gv_refusals::earlier;
use gv_tree::{Script, Top};

/// The refusal of a file's script for a statement of it, or one that was found before where that stands first; None where there is
/// none.
pub fn first_of_loose(file: u8, script: &Script, first: Option<Refusal>) -> Option<Refusal>
    ensures { result ≡ spec.loose_refused file script.now first }
{
    if file == 0 {
        return first;
    }
    match first_statement(script.tops.as_slice()) {
        Some(place) => earlier(
            first,
            Refusal {
                kind: RefusalKind::LooseStatement,
                place,
            },
        ),
        None => first,
    }
}

fn first_statement(tops: &[Top]) -> Option<Place>
    ensures { result ≡ spec.first_statement tops.now }
{
    for top in tops {
        if let Top::Stmt(stmt) = top {
            return Some(stmt_first(stmt));
        }
    }
    None
}
