//! What operators are.

ghost use Rattle.std.specs.Prelude.{◌≡◌};
ghost use Rattle.gv_lower.specs.Core.{method_of, assigned_by, comparison_of};

use crate::known::{Comparison, Known};
use gv_base::Name;
use gv_core::Order;
use gv_tree::{AssignOp, BinaryOp};

/// The method that an operator calls.
pub(crate) fn method_of(known: Known, op: BinaryOp) -> Option<Name>
    ensures { result ≡ method_of known op }
{
    match op {
        BinaryOp::Plus => Some(known.plus),
        BinaryOp::Minus => Some(known.minus),
        BinaryOp::Multiply => Some(known.multiply),
        _ => None,
    }
}

/// The method that an assignment's operator calls; none for a plain one.
pub(crate) fn assigned_by(known: Known, op: AssignOp) -> Option<Name>
    ensures { result ≡ assigned_by known op }
{
    match op {
        AssignOp::Plus => Some(known.plus),
        AssignOp::Minus => Some(known.minus),
        AssignOp::Multiply => Some(known.multiply),
        _ => None,
    }
}

/// The comparison that an operator is.
pub(crate) fn comparison_of(op: BinaryOp) -> Option<Comparison>
    ensures { result ≡ comparison_of op }
{
    match op {
        BinaryOp::Less => Some(Comparison::ByOrder(Order::Less)),
        BinaryOp::LessEqual => Some(Comparison::ByOrder(Order::LessEqual)),
        BinaryOp::Greater => Some(Comparison::ByOrder(Order::Greater)),
        BinaryOp::GreaterEqual => Some(Comparison::ByOrder(Order::GreaterEqual)),
        BinaryOp::Equal => Some(Comparison::Equal),
        BinaryOp::NotEqual => Some(Comparison::NotEqual),
        _ => None,
    }
}
