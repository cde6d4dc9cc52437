//! The statement `switch`.

ghost use Rattle.std.specs.Prelude.{◌≤◌, ◌<◌, length};
ghost use Rattle.gv_spelling.specs.declared.kinds.Keyword.TheVariants as keyword;
ghost use Rattle.gv_grammar.specs.Stmts.{IsStmt, AreCases};
ghost use Rattle.gv_cursor.specs.Reading.{Exactly, Stopped};
ghost use Rattle.gv_decls.specs.Phrases.{NextIs};
ghost use Rattle.gv_blocks.specs.Nests.{Knot};
ghost use Rattle.gv_blocks.specs.Phrases.{IsCase};

use crate::reader::{Blocks, Inner, Nested};
use crate::words::separates;
use gv_cursor::{ReadError, Tokens};
use gv_lex::Token;
use gv_spelling::{Keyword, Symbol};
use gv_tree::{Case, Closure, Stmt};
use sqlite_items::{Boxed, Items};
use std::alloc::Global;

impl<
    'a,
    F: Fn(Global, &[Token], Inner, &mut Tokens<'_>) -> Result<Nested, ReadError>,
    G: Fn(Global, &[Token], usize, usize, &mut usize) -> Result<Closure, ReadError> + Copy,
> Blocks<'a, F, G> {
    pub fn switch_stmt(&self, cursor: &mut Tokens<'_>) -> Result<Stmt, ReadError>
        requires knot { Knot self.now.values.below (F.pre self.now.nested) (F.post self.now.nested) (G.pre self.now.values.body) (G.post self.now.values.body) }
        requires within { length cursor.old.rest.now ≤ self.now.values.below }
        requires next { NextIs keyword.Switch cursor.old.rest.now }
        ensures { Exactly (Stopped (IsStmt self.now.values.tokens.now)) result cursor.old.rest.now cursor.new.rest.now }
    {
        let place = cursor.place();
        cursor.expect_keyword(Keyword::Switch)?;
        let value = Boxed::new(self.values.alloc, self.test(cursor)?)?;
        cursor.expect(Symbol::LeftBrace)?;
        let cases = self.cases(cursor)?;
        cursor.expect_stop()?;
        Ok(Stmt::Switch(place, value, cases))
    }

    /// Cases, and the brace behind them.
    fn cases(&self, cursor: &mut Tokens<'_>) -> Result<Items<Case>, ReadError>
        requires knot { Knot self.now.values.below (F.pre self.now.nested) (F.post self.now.nested) (G.pre self.now.values.body) (G.post self.now.values.body) }
        requires shorter { length cursor.old.rest.now < self.now.values.below }
        ensures { Exactly (AreCases self.now.values.tokens.now) result cursor.old.rest.now cursor.new.rest.now }
    {
        while separates(cursor) {}
        let mut cases = Items::new(self.values.alloc);
        while !cursor.eat(Symbol::RightBrace) {
            cases.push(self.case(cursor)?)?;
        }
        Ok(cases)
    }

    fn case(&self, cursor: &mut Tokens<'_>) -> Result<Case, ReadError>
        requires knot { Knot self.now.values.below (F.pre self.now.nested) (F.post self.now.nested) (G.pre self.now.values.body) (G.post self.now.values.body) }
        requires shorter { length cursor.old.rest.now < self.now.values.below }
        ensures { Exactly (IsCase self.now.values.tokens.now) result cursor.old.rest.now cursor.new.rest.now }
    {
        let place = cursor.place();
        if cursor.eat_keyword(Keyword::Default) {
            cursor.expect(Symbol::Colon)?;
            let body = self.inner_stmts(cursor)?;
            return Ok(Case {
                place,
                value: None,
                body,
            });
        }
        cursor.expect_keyword(Keyword::Case)?;
        let value = Some(Boxed::new(self.values.alloc, self.values.value(cursor)?)?);
        cursor.expect(Symbol::Colon)?;
        let body = self.inner_stmts(cursor)?;
        Ok(Case { place, value, body })
    }
}
