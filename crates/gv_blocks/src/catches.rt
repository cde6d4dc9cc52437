//! The statement `try`.

ghost use Rattle.std.specs.Prelude.{◌≤◌, ◌<◌, List, length};
ghost use Rattle.gv_spelling.specs.declared.kinds.Keyword.TheVariants as keyword;
ghost use Rattle.gv_lex.specs.declared.token.Token.{Token};
ghost use Rattle.gv_grammar.specs.Stmts.{IsStmt, AreCatches, MayTypes};
ghost use Rattle.gv_cursor.specs.Reading.{Exactly, Stopped};
ghost use Rattle.gv_decls.specs.Phrases.{NextIs};
ghost use Rattle.gv_blocks.specs.Nests.{Knot};
ghost use Rattle.gv_blocks.specs.Phrases.{IsCatch};

use crate::reader::{Blocks, Inner, Nested};
use crate::words::begins_types;
use gv_cursor::{ReadError, Tokens, type_of};
use gv_decls::{ident, is_name_token};
use gv_lex::Token;
use gv_spelling::{Keyword, Symbol};
use gv_tree::{Catch, Closure, Stmt, TypeTree};
use sqlite_items::Items;
use std::alloc::Global;

/// Types before a name, with `|` between them, or none.
fn may_types(alloc: Global, cursor: &mut Tokens<'_>) -> Result<Items<TypeTree>, ReadError>
    ensures { (tokens : List Token) → Exactly (MayTypes tokens) result cursor.old.rest.now cursor.new.rest.now }
{
    let mut types = Items::new(alloc);
    if is_name_token(cursor.kind()) {
        if !begins_types(cursor) {
            return Ok(types);
        }
    }
    loop {
        let Some(written) = type_of(cursor.place(), cursor.kind()) else {
            return Err(cursor.refuse());
        };
        cursor.advance();
        types.push(written)?;
        if is_name_token(cursor.kind()) {
            return Ok(types);
        }
        cursor.expect(Symbol::Bar)?;
    }
}

impl<
    'a,
    F: Fn(Global, &[Token], Inner, &mut Tokens<'_>) -> Result<Nested, ReadError>,
    G: Fn(Global, &[Token], usize, usize, &mut usize) -> Result<Closure, ReadError> + Copy,
> Blocks<'a, F, G> {
    pub fn try_stmt(&self, cursor: &mut Tokens<'_>) -> Result<Stmt, ReadError>
        requires knot { Knot self.now.values.below (F.pre self.now.nested) (F.post self.now.nested) (G.pre self.now.values.body) (G.post self.now.values.body) }
        requires within { length cursor.old.rest.now ≤ self.now.values.below }
        requires next { NextIs keyword.Try cursor.old.rest.now }
        ensures { Exactly (Stopped (IsStmt self.now.values.tokens.now)) result cursor.old.rest.now cursor.new.rest.now }
    {
        let place = cursor.place();
        cursor.expect_keyword(Keyword::Try)?;
        let tried = self.block(cursor)?;
        let catches = self.catches(cursor)?;
        if cursor.eat_keyword(Keyword::Finally) {
            let last = self.block(cursor)?;
            cursor.expect_stop()?;
            return Ok(Stmt::Try(place, tried, catches, Some(last)));
        }
        if catches.is_empty() {
            return Err(cursor.refuse());
        }
        cursor.expect_stop()?;
        Ok(Stmt::Try(place, tried, catches, None))
    }

    fn catches(&self, cursor: &mut Tokens<'_>) -> Result<Items<Catch>, ReadError>
        requires knot { Knot self.now.values.below (F.pre self.now.nested) (F.post self.now.nested) (G.pre self.now.values.body) (G.post self.now.values.body) }
        requires shorter { length cursor.old.rest.now < self.now.values.below }
        ensures { Exactly (AreCatches self.now.values.tokens.now) result cursor.old.rest.now cursor.new.rest.now }
    {
        let mut catches = Items::new(self.values.alloc);
        while cursor.sees_keyword(Keyword::Catch) {
            catches.push(self.catch(cursor)?)?;
        }
        Ok(catches)
    }

    fn catch(&self, cursor: &mut Tokens<'_>) -> Result<Catch, ReadError>
        requires knot { Knot self.now.values.below (F.pre self.now.nested) (F.post self.now.nested) (G.pre self.now.values.body) (G.post self.now.values.body) }
        requires shorter { length cursor.old.rest.now < self.now.values.below }
        ensures { Exactly (IsCatch self.now.values.tokens.now) result cursor.old.rest.now cursor.new.rest.now }
    {
        let place = cursor.place();
        cursor.expect_keyword(Keyword::Catch)?;
        cursor.expect(Symbol::LeftParen)?;
        let types = may_types(self.values.alloc, cursor)?;
        let ident = ident(cursor)?;
        cursor.expect(Symbol::RightParen)?;
        let body = self.block(cursor)?;
        Ok(Catch {
            place,
            types,
            ident,
            body,
        })
    }
}
