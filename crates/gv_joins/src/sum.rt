//! Sums.

ghost use Rattle.std.specs.Prelude.{◌≡◌};
ghost use Rattle.gv_joins.specs.Sums as spec;

use crate::join::{Join, Outcome};
use gv_base::Value;
use gv_elements::Elements;

/// What the sum of all elements comes to.
pub(crate) fn sum(elements: Elements) -> Outcome
    ensures { result ≡ spec.sum elements }
{
    match elements.next() {
        None => Outcome::Answers(Value::Null),
        Some((first, rest)) => add_next(first, rest),
    }
}

/// What a sum comes to, with the elements that are still to be added.
pub(crate) fn add_next(sum: Value, elements: Elements) -> Outcome
    ensures { result ≡ spec.added sum elements }
{
    match elements.next() {
        None => Outcome::Answers(sum),
        Some((next, rest)) => Outcome::Adds {
            join: Join::Sum(rest),
            receiver: sum,
            argument: next,
        },
    }
}
