ghost use Rattle.std.specs.Prelude.{◌≡◌};
ghost use Rattle.gv_types.specs.Types as spec;

use gv_base::{Refusal, RefusalKind};
use gv_refusals::earlier;
use gv_tree::Ident;

/// The first refusal, after that of a name which may stand where it is or not.
pub(crate) fn name_refused(may_stand: bool, ident: Ident, first: Option<Refusal>) -> Option<Refusal>
    ensures { result ≡ spec.name_refused may_stand ident first }
{
    if may_stand {
        return first;
    }
    earlier(
        first,
        Refusal {
            kind: RefusalKind::UnknownClass,
            place: ident.place,
        },
    )
}
