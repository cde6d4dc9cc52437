//! Statements that have no others inside, each by its keyword.

ghost use Rattle.std.specs.Prelude.{◌≡◌, ◌≤◌, length, drop};
ghost use Rattle.gv_spelling.specs.declared.kinds.Keyword.TheVariants as keyword;
ghost use Rattle.gv_spelling.specs.declared.kinds.Symbol.TheVariants as symbol;
ghost use Rattle.gv_lex.specs.declared.token.TokenKind.TheVariants as kind;
ghost use Rattle.gv_grammar.specs.Tokens.{kind_of};
ghost use Rattle.gv_grammar.specs.Stmts.{IsStmt};
ghost use Rattle.gv_cursor.specs.Reading.{Exactly, Stopped};
ghost use Rattle.gv_fill.specs.Filled.{Bodies};
ghost use Rattle.gv_decls.specs.Phrases.{NextIs};

use crate::values::Values;
use gv_cursor::{ReadError, Tokens, begins_expr};
use gv_lex::Token;
use gv_spelling::{Keyword, Symbol};
use gv_tree::{Closure, Leave, Stmt};
use sqlite_items::Boxed;
use std::alloc::Global;

impl<
    'a,
    G: Fn(Global, &[Token], usize, usize, &mut usize) -> Result<Closure, ReadError> + Copy,
> Values<'a, G> {
    pub fn multiple(&self, cursor: &mut Tokens<'_>) -> Result<Stmt, ReadError>
        requires bodies { Bodies self.now.below (G.pre self.now.body) (G.post self.now.body) }
        requires within { length cursor.old.rest.now ≤ self.now.below }
        requires next { NextIs keyword.Def cursor.old.rest.now }
        requires paren { kind_of (drop 1 cursor.old.rest.now) ≡ kind.Symbol symbol.LeftParen }
        ensures { Exactly (Stopped (IsStmt self.now.tokens.now)) result cursor.old.rest.now cursor.new.rest.now }
    {
        let place = cursor.place();
        cursor.expect_keyword(Keyword::Def)?;
        cursor.expect(Symbol::LeftParen)?;
        let names = self.names(cursor)?;
        cursor.expect(Symbol::Assign)?;
        let value = self.full_value(cursor)?;
        Ok(Stmt::Multiple(place, names, Boxed::new(self.alloc, value)?))
    }

    pub fn throw_stmt(&self, cursor: &mut Tokens<'_>) -> Result<Stmt, ReadError>
        requires bodies { Bodies self.now.below (G.pre self.now.body) (G.post self.now.body) }
        requires within { length cursor.old.rest.now ≤ self.now.below }
        requires next { NextIs keyword.Throw cursor.old.rest.now }
        ensures { Exactly (Stopped (IsStmt self.now.tokens.now)) result cursor.old.rest.now cursor.new.rest.now }
    {
        let place = cursor.place();
        cursor.expect_keyword(Keyword::Throw)?;
        let value = self.value(cursor)?;
        Ok(Stmt::Throw(place, Boxed::new(self.alloc, value)?))
    }

    pub fn return_stmt(&self, cursor: &mut Tokens<'_>) -> Result<Stmt, ReadError>
        requires bodies { Bodies self.now.below (G.pre self.now.body) (G.post self.now.body) }
        requires within { length cursor.old.rest.now ≤ self.now.below }
        requires next { NextIs keyword.Return cursor.old.rest.now }
        ensures { Exactly (Stopped (IsStmt self.now.tokens.now)) result cursor.old.rest.now cursor.new.rest.now }
    {
        let place = cursor.place();
        cursor.expect_keyword(Keyword::Return)?;
        if begins_expr(cursor.kind()) {
            let value = self.full_value(cursor)?;
            return Ok(Stmt::Return(place, Some(Boxed::new(self.alloc, value)?)));
        }
        cursor.expect_stop()?;
        Ok(Stmt::Return(place, None))
    }

    pub fn break_stmt(&self, cursor: &mut Tokens<'_>) -> Result<Stmt, ReadError>
        requires next { NextIs keyword.Break cursor.old.rest.now }
        ensures { Exactly (Stopped (IsStmt self.now.tokens.now)) result cursor.old.rest.now cursor.new.rest.now }
    {
        let place = cursor.place();
        cursor.expect_keyword(Keyword::Break)?;
        cursor.expect_stop()?;
        Ok(Stmt::Leave(place, Leave::Break))
    }

    pub fn continue_stmt(&self, cursor: &mut Tokens<'_>) -> Result<Stmt, ReadError>
        requires next { NextIs keyword.Continue cursor.old.rest.now }
        ensures { Exactly (Stopped (IsStmt self.now.tokens.now)) result cursor.old.rest.now cursor.new.rest.now }
    {
        let place = cursor.place();
        cursor.expect_keyword(Keyword::Continue)?;
        cursor.expect_stop()?;
        Ok(Stmt::Leave(place, Leave::Continue))
    }

    pub fn assert_stmt(&self, cursor: &mut Tokens<'_>) -> Result<Stmt, ReadError>
        requires bodies { Bodies self.now.below (G.pre self.now.body) (G.post self.now.body) }
        requires within { length cursor.old.rest.now ≤ self.now.below }
        requires next { NextIs keyword.Assert cursor.old.rest.now }
        ensures { Exactly (Stopped (IsStmt self.now.tokens.now)) result cursor.old.rest.now cursor.new.rest.now }
    {
        let place = cursor.place();
        cursor.expect_keyword(Keyword::Assert)?;
        let condition = Boxed::new(self.alloc, self.value(cursor)?)?;
        if !cursor.eat(Symbol::Colon) {
            return Ok(Stmt::Assert(place, condition, None));
        }
        let message = Boxed::new(self.alloc, self.value(cursor)?)?;
        Ok(Stmt::Assert(place, condition, Some(message)))
    }
}
