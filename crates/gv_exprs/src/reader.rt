//! A reader of expressions, and what it reads by its function value.

ghost use Rattle.std.specs.Prelude.{◌<◌, length};
ghost use Rattle.gv_grammar.specs.Exprs.{IsExpr, IsCond, IsUnary};
ghost use Rattle.gv_cursor.specs.Reading.{Reads};
ghost use Rattle.gv_exprs.specs.Nests.{Nests, phrase_of};

use gv_cursor::{ReadError, Tokens};
use gv_tree::Expr;
use std::alloc::Global;

/// What is read from the inside of something else.
#[derive(Clone, Copy)]
pub enum Inner {
    Expr,
    Cond,
    Unary,
}

/// Reads the phrases of expressions.
#[derive(Clone, Copy)]
pub struct Exprs<F> {
    pub alloc: Global,
    /// How many tokens the whole list has.
    pub all: usize,
    /// `nested` reads from fewer tokens than these.
    pub below: usize,
    pub nested: F,
}

impl<F: Fn(Global, usize, Inner, &mut Tokens<'_>) -> Result<Expr, ReadError>> Exprs<F> {
    fn inner(&self, which: Inner, tokens: &mut Tokens<'_>) -> Result<Expr, ReadError>
        requires nests { Nests self.now.below (F.pre self.now.nested) (F.post self.now.nested) }
        requires shorter { length tokens.old.rest.now < self.now.below }
        ensures { Reads (phrase_of self.now.all which) result tokens.old.rest.now tokens.new.rest.now }
    {
        (self.nested)(self.alloc, self.all, which, tokens)
    }

    pub fn inner_expr(&self, tokens: &mut Tokens<'_>) -> Result<Expr, ReadError>
        requires nests { Nests self.now.below (F.pre self.now.nested) (F.post self.now.nested) }
        requires shorter { length tokens.old.rest.now < self.now.below }
        ensures { Reads (IsExpr self.now.all) result tokens.old.rest.now tokens.new.rest.now }
    {
        self.inner(Inner::Expr, tokens)
    }

    pub fn inner_cond(&self, tokens: &mut Tokens<'_>) -> Result<Expr, ReadError>
        requires nests { Nests self.now.below (F.pre self.now.nested) (F.post self.now.nested) }
        requires shorter { length tokens.old.rest.now < self.now.below }
        ensures { Reads (IsCond self.now.all) result tokens.old.rest.now tokens.new.rest.now }
    {
        self.inner(Inner::Cond, tokens)
    }

    pub fn inner_unary(&self, tokens: &mut Tokens<'_>) -> Result<Expr, ReadError>
        requires nests { Nests self.now.below (F.pre self.now.nested) (F.post self.now.nested) }
        requires shorter { length tokens.old.rest.now < self.now.below }
        ensures { Reads (IsUnary self.now.all) result tokens.old.rest.now tokens.new.rest.now }
    {
        self.inner(Inner::Unary, tokens)
    }
}
