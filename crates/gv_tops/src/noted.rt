ghost use Rattle.std.specs.Prelude.{◌≡◌};
ghost use Rattle.gv_tops.specs.Tops as spec;

use gv_base::{Place, Refusal, RefusalKind};
use gv_refusals::earlier;

/// The first refusal, after one more that is found.
pub(crate) fn noted(kind: RefusalKind, place: Place, first: Option<Refusal>) -> Option<Refusal>
    ensures { result ≡ spec.noted kind place first }
{
    earlier(first, Refusal { kind, place })
}
