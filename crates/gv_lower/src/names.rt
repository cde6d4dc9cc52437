//! Variables in scope, the oldest first.

ghost use Rattle.std.specs.Prelude.{◌≡◌, ◌==◌};
ghost use Rattle.std.specs.List.{list_any};
ghost use Rattle.gv_tree.specs.declared.expr.Expr.{out-Expr};
ghost use Rattle.gv_lower.specs.Core.{place_of, slot_of, name_in};

use gv_base::Name;
use gv_tree::{Atom, Expr};

// The place of a variable's name.
fn place_of(vars: &[Name], name: Name) -> Option<usize>
    ensures { result ≡ place_of vars.now name }
{
    vars.iter().position(|other| *other == name)
}

/// The slot of a variable: the first one has `this`.
pub(crate) fn slot_of(vars: &[Name], name: Name) -> Option<usize>
    ensures { result ≡ slot_of vars.now name }
{
    match place_of(vars, name) {
        Some(place) => Some(place + 1),
        None => None,
    }
}

/// Whether a variable has this name.
pub(crate) fn is_declared(vars: &[Name], name: Name) -> bool
    ensures { result ≡ list_any (λ v. v == name) vars.now }
{
    vars.iter().any(|other| *other == name)
}

/// The name that an expression is.
pub(crate) fn name_in(expr: &Expr) -> Option<Name>
    ensures { result ≡ name_in (out-Expr expr.now) }
{
    match expr {
        Expr::Atom(_, Atom::Name(name)) => Some(*name),
        _ => None,
    }
}
