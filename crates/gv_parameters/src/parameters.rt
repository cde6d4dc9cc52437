//! The parameters of a closure, and of those that it is made of.

ghost use Rattle.std.specs.Prelude.{◌≡◌, IfOk};
ghost use Rattle.gv_heap.specs.Heap.{object_at};
ghost use Rattle.gv_parameters.specs.Parameters as spec;

use gv_base::{ObjId, OutOfMemory};
use gv_heap::{Bound, Heap, Object, Origin};

/// What is known of the parameters of a closure.
#[derive(Clone, Copy, Debug, PartialEq, Eq)]
pub(crate) enum Known {
    /// Whether it has as many as wanted.
    Has(bool),
    /// It has as many exactly where another one has so many.
    SameAs { of: ObjId, wanted: usize },
}

/// Whether a closure has at least so many parameters; no other object has any. So great a number that it can't be counted
/// is want of memory.
#[tactic(auto, using(crate::proofs::Within::within_same))]
pub fn has_parameters(heap: &Heap, closure: ObjId, wanted: usize) -> Result<bool, OutOfMemory>
    ensures { IfOk result (λ has. has ≡ spec.has_parameters heap.now closure wanted) }
{
    let mut closure = closure;
    let mut wanted = wanted;
    let mut levels = closure.checked_add(1).ok_or(OutOfMemory)?;
    while levels > 0 {
        levels -= 1;
        match known_at(heap, closure, wanted)? {
            Known::Has(has) => return Ok(has),
            Known::SameAs {
                of,
                wanted: further,
            } => {
                closure = of;
                wanted = further;
            }
        }
    }
    Ok(false)
}

fn known_at(heap: &Heap, closure: ObjId, wanted: usize) -> Result<Known, OutOfMemory>
    ensures { IfOk result (λ known. known ≡ spec.known (object_at heap.now closure) wanted) }
{
    match heap.get(closure) {
        Some(Object::Closure(closure)) => known_of(&closure.get().origin, wanted),
        _ => Ok(Known::Has(false)),
    }
}

fn known_of(origin: &Origin, wanted: usize) -> Result<Known, OutOfMemory>
    ensures { IfOk result (λ known. known ≡ spec.known_of origin.now wanted) }
{
    match origin {
        Origin::Written { parameters, .. } => Ok(Known::Has(wanted <= *parameters)),
        Origin::Bound(Bound::Curried { of, args, .. } | Bound::CurriedLast { of, args }) => {
            Ok(Known::SameAs {
                of: *of,
                wanted: wanted
                    .checked_add(args.as_slice().len())
                    .ok_or(OutOfMemory)?,
            })
        }
        Origin::Bound(Bound::Composed { first, .. }) => Ok(Known::SameAs { of: *first, wanted }),
        Origin::Bound(Bound::Method { .. }) => Ok(Known::Has(wanted <= 1)),
    }
}
