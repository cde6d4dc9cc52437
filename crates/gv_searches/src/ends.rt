//! What a search answers.

ghost use Rattle.std.specs.Prelude.{◌≡◌, IfOk};
ghost use Rattle.gv_searches.specs.Searches as spec;

use crate::search::{Judged, Outcome, Seeking};
use gv_base::{OutOfMemory, Value};
use gv_rows::integer_of;

/// What a search answers behind the last element.
pub(crate) fn ended(seeking: Seeking) -> Outcome
    ensures { result ≡ spec.ended seeking }
{
    match seeking {
        Seeking::Has | Seeking::Removes(_) => Outcome::Answers(Value::Bool(false)),
        Seeking::Place => Outcome::Answers(Value::Int(-1)),
        Seeking::Counts(count) => Outcome::Answers(integer_of(count)),
    }
}

/// What an element does that is equal or isn't.
pub(crate) fn judged(seeking: Seeking, at: usize, same: bool) -> Result<Judged, OutOfMemory>
    ensures { IfOk result (λ judged. judged ≡ spec.judged seeking at same) }
{
    if same {
        found(seeking, at)
    } else {
        Ok(Judged::Goes(seeking))
    }
}

/// What an equal one does.
fn found(seeking: Seeking, at: usize) -> Result<Judged, OutOfMemory>
    ensures { IfOk result (λ judged. judged ≡ spec.found seeking at) }
{
    match seeking {
        Seeking::Has => Ok(Judged::Ends(Outcome::Answers(Value::Bool(true)))),
        Seeking::Place => Ok(Judged::Ends(Outcome::Answers(integer_of(at)))),
        Seeking::Removes(list) => Ok(Judged::Ends(Outcome::TakesOut { list, at })),
        Seeking::Counts(count) => {
            let count = count.checked_add(1).ok_or(OutOfMemory)?;
            Ok(Judged::Goes(Seeking::Counts(count)))
        }
    }
}
