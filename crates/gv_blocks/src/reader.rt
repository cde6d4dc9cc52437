//! A reader of statements, and what it reads by its function values.

ghost use Rattle.std.specs.Prelude.{◌<◌, length};
ghost use Rattle.gv_grammar.specs.Stmts.{AreStmts, IsStmt};
ghost use Rattle.gv_cursor.specs.Reading.{Exactly, Stopped};
ghost use Rattle.gv_blocks.specs.Nests.{Knot, IsNested};

use gv_cursor::{ReadError, Tokens};
use gv_decls::Values;
use gv_lex::Token;
use gv_tree::{Closure, Stmt};
use sqlite_items::Items;
use std::alloc::Global;

/// What is read from the inside of a statement.
#[derive(Clone, Copy)]
pub enum Inner {
    /// All statements up to what ends them.
    Stmts,
    Stmt,
}

/// What was read from the inside of a statement.
#[derive(Drop)]
pub enum Nested {
    Stmts(Items<Stmt>),
    Stmt(Stmt),
}

/// Reads statements.
#[derive(Clone, Copy)]
pub struct Blocks<'a, F, G> {
    /// Its bound is that of `nested`, too.
    pub values: Values<'a, G>,
    /// Reads what is nested.
    pub nested: F,
}

impl<
    'a,
    F: Fn(Global, &[Token], Inner, &mut Tokens<'_>) -> Result<Nested, ReadError>,
    G: Fn(Global, &[Token], usize, usize, &mut usize) -> Result<Closure, ReadError> + Copy,
> Blocks<'a, F, G> {
    fn inner(&self, which: Inner, cursor: &mut Tokens<'_>) -> Result<Nested, ReadError>
        requires knot { Knot self.now.values.below (F.pre self.now.nested) (F.post self.now.nested) (G.pre self.now.values.body) (G.post self.now.values.body) }
        requires shorter { length cursor.old.rest.now < self.now.values.below }
        ensures { Exactly (IsNested self.now.values.tokens.now which) result cursor.old.rest.now cursor.new.rest.now }
    {
        (self.nested)(self.values.alloc, self.values.tokens, which, cursor)
    }

    pub fn inner_stmts(&self, cursor: &mut Tokens<'_>) -> Result<Items<Stmt>, ReadError>
        requires knot { Knot self.now.values.below (F.pre self.now.nested) (F.post self.now.nested) (G.pre self.now.values.body) (G.post self.now.values.body) }
        requires shorter { length cursor.old.rest.now < self.now.values.below }
        ensures { Exactly (AreStmts self.now.values.tokens.now) result cursor.old.rest.now cursor.new.rest.now }
    {
        match self.inner(Inner::Stmts, cursor)? {
            Nested::Stmts(stmts) => Ok(stmts),
            Nested::Stmt(_) => Err(cursor.refuse()),
        }
    }

    pub fn inner_stmt(&self, cursor: &mut Tokens<'_>) -> Result<Stmt, ReadError>
        requires knot { Knot self.now.values.below (F.pre self.now.nested) (F.post self.now.nested) (G.pre self.now.values.body) (G.post self.now.values.body) }
        requires shorter { length cursor.old.rest.now < self.now.values.below }
        ensures { Exactly (Stopped (IsStmt self.now.values.tokens.now)) result cursor.old.rest.now cursor.new.rest.now }
    {
        match self.inner(Inner::Stmt, cursor)? {
            Nested::Stmt(stmt) => Ok(stmt),
            Nested::Stmts(_) => Err(cursor.refuse()),
        }
    }
}
