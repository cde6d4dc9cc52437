//! Readers of nested phrases, each by the next.

ghost use Rattle.gv_grammar.specs.Exprs.{IsExpr, IsCond, IsPath, IsSuffix};
ghost use Rattle.gv_cursor.specs.Reading.{Reads, Extends};
ghost use Rattle.gv_exprs.specs.Nests.{phrase_of};

use crate::reader::{Exprs, Inner};
use gv_cursor::{ReadError, Tokens};
use gv_tree::Expr;
use std::alloc::Global;

fn top(alloc: Global, all: usize, which: Inner, tokens: &mut Tokens<'_>) -> Result<Expr, ReadError>
    ensures { Reads (phrase_of all which) result tokens.old.rest.now tokens.new.rest.now }
{
    let exprs = Exprs {
        alloc,
        all,
        below: tokens.rest.len(),
        nested: top,
    };
    match which {
        Inner::Expr => exprs.expr(tokens),
        Inner::Cond => exprs.cond(tokens),
        Inner::Unary => exprs.unary(tokens),
    }
}

/// Reads the longest expression. `all` is how many tokens the whole list has; closures stay unread,
/// with the places of their inner tokens there. Refused where no expression begins.
pub fn read_expr(alloc: Global, all: usize, tokens: &mut Tokens<'_>) -> Result<Expr, ReadError>
    ensures { Reads (IsExpr all) result tokens.old.rest.now tokens.new.rest.now }
{
    top(alloc, all, Inner::Expr, tokens)
}

/// Reads the longest condition: an expression that assigns nothing outside of brackets. As `read_expr`
/// does.
pub fn read_cond(alloc: Global, all: usize, tokens: &mut Tokens<'_>) -> Result<Expr, ReadError>
    ensures { Reads (IsCond all) result tokens.old.rest.now tokens.new.rest.now }
{
    top(alloc, all, Inner::Cond, tokens)
}

/// Reads the longest path: a primary and its suffixes. As `read_expr` does.
pub fn read_path(alloc: Global, all: usize, tokens: &mut Tokens<'_>) -> Result<Expr, ReadError>
    ensures { Reads (IsPath all) result tokens.old.rest.now tokens.new.rest.now }
{
    let exprs = Exprs {
        alloc,
        all,
        below: tokens.rest.len(),
        nested: top,
    };
    exprs.path(tokens)
}

/// Reads one suffix behind a tree: the tree with it, and whether there is one. As `read_expr` does, but
/// nothing is refused.
pub fn read_suffix(
    alloc: Global,
    all: usize,
    left: Expr,
    tokens: &mut Tokens<'_>,
) -> Result<(Expr, bool), ReadError>
    ensures { Extends (IsSuffix all) left result tokens.old.rest.now tokens.new.rest.now }
{
    let exprs = Exprs {
        alloc,
        all,
        below: tokens.rest.len(),
        nested: top,
    };
    exprs.suffix(tokens, left)
}
