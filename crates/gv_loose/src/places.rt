//! Where a statement's first token stands.

ghost use Rattle.std.specs.Prelude.{◌≡◌};
ghost use Rattle.gv_tree.specs.declared.expr.Expr.{out-Expr};
ghost use Rattle.gv_loose.specs.Loose as spec;

use gv_base::Place;
use gv_tree::{Expr, Stmt, UnaryOp};

/// As deep as the trees of the grammar may be: three levels for each of the 300 that may be open at a place, and some.
const MOST_LEVELS: u32 = 1000;

/// The place of a statement's first token.
pub(crate) fn stmt_first(stmt: &Stmt) -> Place
    ensures { result ≡ spec.stmt_first stmt.now }
{
    match stmt {
        Stmt::Decl(decl) => decl.place,
        Stmt::Expr(x) => expr_first(MOST_LEVELS, x.get()),
        Stmt::Multiple(place, _, _)
        | Stmt::Block(place, _)
        | Stmt::If(place, _, _, _)
        | Stmt::While(place, _, _)
        | Stmt::ForIn(place, _, _, _, _)
        | Stmt::For(place, _, _, _, _)
        | Stmt::Switch(place, _, _)
        | Stmt::Try(place, _, _, _)
        | Stmt::Throw(place, _)
        | Stmt::Return(place, _)
        | Stmt::Leave(place, _)
        | Stmt::Assert(place, _, _) => *place,
    }
}

// An expression's, as deep as so many may stand in one another.
#[cycle(first)]
fn expr_first(levels: u32, x: &Expr) -> Place
    ensures { result ≡ spec.expr_first levels x.now }
{
    if levels == 0 {
        return Place {
            file: 0,
            line: 0,
            column: 0,
        };
    }
    first_in(levels - 1, x)
}

#[cycle(first)]
fn first_in(levels: u32, x: &Expr) -> Place
    ensures { result ≡ spec.first_in (spec.expr_first levels) (out-Expr x.now) }
{
    match x {
        Expr::Atom(place, _)
        | Expr::GString(place, _)
        | Expr::Paren(place, _)
        | Expr::List(place, _)
        | Expr::Map(place, _)
        | Expr::Closure(place, _)
        | Expr::New(place, _, _) => *place,
        Expr::Unary(place, op, operand) => match op {
            UnaryOp::IncrementAfter | UnaryOp::DecrementAfter => expr_first(levels, operand.get()),
            _ => *place,
        },
        Expr::Binary(_, _, left, _)
        | Expr::Typed(_, _, left, _)
        | Expr::Choice(_, left, _, _)
        | Expr::Assign(_, _, left, _)
        | Expr::Member(_, _, left, _)
        | Expr::Field(_, left, _)
        | Expr::Index(_, left, _)
        | Expr::Call(_, left, _) => expr_first(levels, left.get()),
    }
}
