//! How the text of an expression begins.

ghost use Rattle.std.specs.Prelude.{◌≡◌};
ghost use Rattle.gv_print.specs.Texts.{begins_with_sign};
ghost use Rattle.gv_print.specs.Printed as spec;

use crate::words::is_behind;
use gv_tree::{Atom, Expr, UnaryOp};

/// Whether the text of an expression begins with a digit or a sign.
pub(crate) fn begins_signed(levels: u32, x: &Expr) -> bool
    ensures { result ≡ spec.begins_signed levels x.now }
{
    if levels == 0 {
        return false;
    }
    match x {
        Expr::Atom(_, Atom::Int(_) | Atom::Long(_)) => true,
        Expr::Unary(_, op, operand) => {
            if is_behind(*op) {
                begins_signed(levels - 1, operand.get())
            } else {
                begins_with_sign(*op)
            }
        }
        Expr::Binary(_, _, first, _)
        | Expr::Typed(_, _, first, _)
        | Expr::Choice(_, first, _, _)
        | Expr::Assign(_, _, first, _)
        | Expr::Member(_, _, first, _)
        | Expr::Field(_, first, _)
        | Expr::Index(_, first, _)
        | Expr::Call(_, first, _) => begins_signed(levels - 1, first.get()),
        _ => false,
    }
}

fn begins_with_sign(op: UnaryOp) -> bool
    ensures { result ≡ begins_with_sign op }
{
    !matches!(op, UnaryOp::Not)
}
