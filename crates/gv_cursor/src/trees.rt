//! What may follow a tree.

ghost use Rattle.std.specs.Prelude.{◌≡◌};
ghost use Rattle.gv_grammar.specs.Commands as commands;
ghost use Rattle.gv_grammar.specs.Exprs as exprs;

use gv_tree::{Atom, Expr, MemberOp};

/// Whether it may stand on the left of an assignment.
#[tactic(auto, unfolding(gv_grammar::specs::Exprs::is_target))]
pub fn is_target(expr: &Expr) -> bool
    ensures { result ≡ exprs.is_target expr.now }
{
    match expr {
        Expr::Atom(_, Atom::Name(_))
        | Expr::Member(_, MemberOp::Dot, _, _)
        | Expr::Field(_, _, _)
        | Expr::Index(_, _, _) => true,
        _ => false,
    }
}

/// Whether a closure may follow it as an argument.
#[tactic(auto, unfolding(gv_grammar::specs::Exprs::takes_closures))]
pub fn takes_closures(expr: &Expr) -> bool
    ensures { result ≡ exprs.takes_closures expr.now }
{
    match expr {
        Expr::Atom(_, Atom::Name(_)) | Expr::Member(_, _, _, _) | Expr::Call(_, _, _) => true,
        _ => false,
    }
}

/// Whether arguments without parentheses may follow it.
#[tactic(auto, unfolding(gv_grammar::specs::Commands::ends_in_name))]
pub fn ends_in_name(expr: &Expr) -> bool
    ensures { result ≡ commands.ends_in_name expr.now }
{
    match expr {
        Expr::Atom(_, Atom::Name(_)) | Expr::Member(_, _, _, _) => true,
        _ => false,
    }
}

/// Whether a name may follow it, as the links of a command do.
#[tactic(auto, unfolding(gv_grammar::specs::Commands::ends_in_call))]
pub fn ends_in_call(expr: &Expr) -> bool
    ensures { result ≡ commands.ends_in_call expr.now }
{
    matches!(expr, Expr::Call(_, _, _))
}
