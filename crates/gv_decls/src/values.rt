//! A reader of expressions, whose closures it reads by its function value.

ghost use Rattle.std.specs.Prelude.{◌≡◌, ◌≤◌, length};
ghost use Rattle.gv_grammar.specs.Closures.{Within, unread_places};
ghost use Rattle.gv_grammar.specs.Stmts.{IsValue, IsFullValue};
ghost use Rattle.gv_cursor.specs.Reading.{Exactly, Stopped};
ghost use Rattle.gv_fill.specs.Filled.{Bodies};
ghost use Rattle.gv_decls.specs.Phrases.{ReadsTree};

use gv_commands::read_full;
use gv_cursor::{ReadError, Tokens};
use gv_exprs::read_expr;
use gv_fill::Filler;
use gv_lex::Token;
use gv_tree::{Closure, Expr};
use std::alloc::Global;

/// Reads expressions, and what is made of them.
#[derive(Clone, Copy)]
pub struct Values<'a, G> {
    pub alloc: Global,
    /// The whole list.
    pub tokens: &'a [Token],
    /// `body` reads from fewer tokens than these.
    pub below: usize,
    /// Reads the tokens between two places of the list as those of a closure.
    pub body: G,
}

impl<
    'a,
    G: Fn(Global, &[Token], usize, usize, &mut usize) -> Result<Closure, ReadError> + Copy,
> Values<'a, G> {
    /// An expression with its closures read.
    fn read(&self, unread: Expr, cursor: &mut Tokens<'_>) -> Result<Expr, ReadError>
        requires bodies { Bodies self.now.below (G.pre self.now.body) (G.post self.now.body) }
        requires within { Within (length self.now.tokens.now) self.now.below (unread_places unread) }
        ensures same { cursor.new.rest.now ≡ cursor.old.rest.now }
        ensures reads { ReadsTree self.now.tokens.now unread result }
    {
        Filler {
            alloc: self.alloc,
            tokens: self.tokens,
            below: self.below,
            body: self.body,
        }
        .fill(unread, &mut cursor.furthest)
    }

    /// An expression with its closures read, before a token with which none goes on.
    pub fn value(&self, cursor: &mut Tokens<'_>) -> Result<Expr, ReadError>
        requires bodies { Bodies self.now.below (G.pre self.now.body) (G.post self.now.body) }
        requires within { length cursor.old.rest.now ≤ self.now.below }
        ensures { Exactly (Stopped (IsValue self.now.tokens.now)) result cursor.old.rest.now cursor.new.rest.now }
    {
        let unread = read_expr(self.alloc, self.tokens.len(), cursor)?;
        cursor.expect_stop()?;
        self.read(unread, cursor)
    }

    /// A full expression with its closures read, before a token with which none goes on.
    pub fn full_value(&self, cursor: &mut Tokens<'_>) -> Result<Expr, ReadError>
        requires bodies { Bodies self.now.below (G.pre self.now.body) (G.post self.now.body) }
        requires within { length cursor.old.rest.now ≤ self.now.below }
        ensures { Exactly (Stopped (IsFullValue self.now.tokens.now)) result cursor.old.rest.now cursor.new.rest.now }
    {
        let unread = read_full(self.alloc, self.tokens.len(), cursor)?;
        self.read(unread, cursor)
    }
}
