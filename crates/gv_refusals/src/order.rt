ghost use Rattle.std.specs.Prelude.{◌≡◌};
ghost use Rattle.gv_refusals.specs.Order as spec;

use gv_base::{Place, Refusal};

/// The first refusal, of the first so far and one more that is found.
pub fn earlier(first: Option<Refusal>, found: Refusal) -> Option<Refusal>
    ensures { result ≡ spec.earlier first found }
{
    match first {
        Some(first) => {
            if stands_before(found, first) {
                Some(found)
            } else {
                Some(first)
            }
        }
        None => Some(found),
    }
}

fn stands_before(a: Refusal, b: Refusal) -> bool
    ensures { result ≡ spec.stands_before a b }
{
    let (here, there) = (a.place, b.place);
    here.file < there.file
        || (here.file == there.file
            && (here.line < there.line
                || (here.line == there.line
                    && (here.column < there.column
                        || (here.column == there.column && a.kind.number() < b.kind.number())))))
}
