//! Where `this` and `super` are called, or a member of them is named.

ghost use Rattle.std.specs.Prelude.{◌≡◌};
ghost use Rattle.gv_tree.specs.declared.expr.Expr.{out-Expr};
ghost use Rattle.gv_events.specs.Events as spec;

use gv_base::Place;
use gv_tree::{Atom, Expr, MemberOp};

/// The place of the `super` whose member is called.
pub(crate) fn super_in(op: MemberOp, receiver: &Expr) -> Option<Place>
    ensures { result ≡ spec.super_in op (out-Expr receiver.now) }
{
    match (op, receiver) {
        (MemberOp::Dot, Expr::Atom(place, Atom::Super)) => Some(*place),
        _ => None,
    }
}

/// Whether an expression is `this`.
pub(crate) fn is_this(receiver: &Expr) -> bool
    ensures { result ≡ spec.is_this (out-Expr receiver.now) }
{
    matches!(receiver, Expr::Atom(_, Atom::This))
}

/// Whether a member of `this` is named.
pub(crate) fn is_of_this(op: MemberOp, receiver: &Expr) -> bool
    ensures { result ≡ spec.is_of_this op (out-Expr receiver.now) }
{
    match op {
        MemberOp::Dot => is_this(receiver),
        _ => false,
    }
}

/// The place of the `this` or `super` that is called.
pub(crate) fn constructor_in(callee: &Expr) -> Option<Place>
    ensures { result ≡ spec.constructor_in (out-Expr callee.now) }
{
    match callee {
        Expr::Atom(place, Atom::This | Atom::Super) => Some(*place),
        _ => None,
    }
}
