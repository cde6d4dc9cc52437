//! Blocks, and the statements `if` and `while`.

ghost use Rattle.std.specs.Prelude.{◌≤◌, ◌<◌, length};
ghost use Rattle.gv_spelling.specs.declared.kinds.Keyword.TheVariants as keyword;
ghost use Rattle.gv_grammar.specs.Stmts.{IsStmt, IsTest, IsBody, IsBlock};
ghost use Rattle.gv_cursor.specs.Reading.{Exactly, Stopped};
ghost use Rattle.gv_decls.specs.Phrases.{NextIs};
ghost use Rattle.gv_blocks.specs.Nests.{Knot};

use crate::reader::{Blocks, Inner, Nested};
use crate::words::may_line;
use gv_cursor::{ReadError, Tokens};
use gv_lex::Token;
use gv_spelling::{Keyword, Symbol};
use gv_tree::{Closure, Expr, Stmt};
use sqlite_items::{Boxed, Items};
use std::alloc::Global;

impl<
    'a,
    F: Fn(Global, &[Token], Inner, &mut Tokens<'_>) -> Result<Nested, ReadError>,
    G: Fn(Global, &[Token], usize, usize, &mut usize) -> Result<Closure, ReadError> + Copy,
> Blocks<'a, F, G> {
    /// An expression in parentheses, and the line ends behind it.
    pub fn test(&self, cursor: &mut Tokens<'_>) -> Result<Expr, ReadError>
        requires knot { Knot self.now.values.below (F.pre self.now.nested) (F.post self.now.nested) (G.pre self.now.values.body) (G.post self.now.values.body) }
        requires within { length cursor.old.rest.now ≤ self.now.values.below }
        ensures { Exactly (IsTest self.now.values.tokens.now) result cursor.old.rest.now cursor.new.rest.now }
    {
        cursor.expect(Symbol::LeftParen)?;
        let value = self.values.value(cursor)?;
        cursor.expect(Symbol::RightParen)?;
        may_line(cursor);
        Ok(value)
    }

    /// A block, or a statement.
    pub fn body_stmt(&self, cursor: &mut Tokens<'_>) -> Result<Stmt, ReadError>
        requires knot { Knot self.now.values.below (F.pre self.now.nested) (F.post self.now.nested) (G.pre self.now.values.body) (G.post self.now.values.body) }
        requires shorter { length cursor.old.rest.now < self.now.values.below }
        ensures { Exactly (Stopped (IsBody self.now.values.tokens.now)) result cursor.old.rest.now cursor.new.rest.now }
    {
        if !cursor.sees(Symbol::LeftBrace) {
            return self.inner_stmt(cursor);
        }
        let place = cursor.place();
        let block = self.block(cursor)?;
        cursor.expect_stop()?;
        Ok(Stmt::Block(place, block))
    }

    /// Statements in braces.
    pub fn block(&self, cursor: &mut Tokens<'_>) -> Result<Items<Stmt>, ReadError>
        requires knot { Knot self.now.values.below (F.pre self.now.nested) (F.post self.now.nested) (G.pre self.now.values.body) (G.post self.now.values.body) }
        requires within { length cursor.old.rest.now ≤ self.now.values.below }
        ensures { Exactly (IsBlock self.now.values.tokens.now) result cursor.old.rest.now cursor.new.rest.now }
    {
        cursor.expect(Symbol::LeftBrace)?;
        let block = self.inner_stmts(cursor)?;
        cursor.expect(Symbol::RightBrace)?;
        Ok(block)
    }

    pub fn if_stmt(&self, cursor: &mut Tokens<'_>) -> Result<Stmt, ReadError>
        requires knot { Knot self.now.values.below (F.pre self.now.nested) (F.post self.now.nested) (G.pre self.now.values.body) (G.post self.now.values.body) }
        requires within { length cursor.old.rest.now ≤ self.now.values.below }
        requires next { NextIs keyword.If cursor.old.rest.now }
        ensures { Exactly (Stopped (IsStmt self.now.values.tokens.now)) result cursor.old.rest.now cursor.new.rest.now }
    {
        let place = cursor.place();
        cursor.expect_keyword(Keyword::If)?;
        let test = Boxed::new(self.values.alloc, self.test(cursor)?)?;
        let then = Boxed::new(self.values.alloc, self.body_stmt(cursor)?)?;
        if !cursor.eat_keyword(Keyword::Else) {
            return Ok(Stmt::If(place, test, then, None));
        }
        let other = Boxed::new(self.values.alloc, self.body_stmt(cursor)?)?;
        Ok(Stmt::If(place, test, then, Some(other)))
    }

    pub fn while_stmt(&self, cursor: &mut Tokens<'_>) -> Result<Stmt, ReadError>
        requires knot { Knot self.now.values.below (F.pre self.now.nested) (F.post self.now.nested) (G.pre self.now.values.body) (G.post self.now.values.body) }
        requires within { length cursor.old.rest.now ≤ self.now.values.below }
        requires next { NextIs keyword.While cursor.old.rest.now }
        ensures { Exactly (Stopped (IsStmt self.now.values.tokens.now)) result cursor.old.rest.now cursor.new.rest.now }
    {
        let place = cursor.place();
        cursor.expect_keyword(Keyword::While)?;
        let test = Boxed::new(self.values.alloc, self.test(cursor)?)?;
        let body = Boxed::new(self.values.alloc, self.body_stmt(cursor)?)?;
        Ok(Stmt::While(place, test, body))
    }
}
