//! The statement `for`.

ghost use Rattle.std.specs.Prelude.{◌≡◌, ◌≤◌, length, MatchBool, MatchResult};
ghost use Rattle.gv_spelling.specs.declared.kinds.Keyword.TheVariants as keyword;
ghost use Rattle.gv_grammar.specs.Stmts.{IsStmt, MayBegin, MayValue};
ghost use Rattle.gv_cursor.specs.declared.error.ReadError.TheVariants.{OutOfMemory};
ghost use Rattle.gv_cursor.specs.Reading.{Exactly, Stopped};
ghost use Rattle.gv_decls.specs.Phrases.{NextIs};
ghost use Rattle.gv_blocks.specs.Nests.{Knot};
ghost use Rattle.gv_blocks.specs.Phrases.{IsForInHead, BeginsParts};

use crate::reader::{Blocks, Inner, Nested};
use crate::words::{begins_decl, may_line};
use gv_cursor::{ReadError, Tokens, begins_expr, name_of};
use gv_decls::{begins_typed, ident, may_typed};
use gv_exprs::read_expr;
use gv_lex::Token;
use gv_spelling::{Keyword, Symbol};
use gv_tree::{Closure, Expr, Stmt};
use sqlite_items::Boxed;
use std::alloc::Global;

/// Whether `in` or `:` stands behind the first name in a `for`. The error is want of memory.
fn is_for_in(cursor: &Tokens<'_>) -> Result<bool, ReadError>
    ensures { MatchResult result (λ found. MatchBool found (IsForInHead cursor.now.rest.now) (IsForInHead cursor.now.rest.now → ⊥)) (λ e. e ≡ OutOfMemory) }
{
    let mut ahead = Tokens {
        rest: cursor.rest,
        furthest: 0,
    };
    if !ahead.eat_keyword(Keyword::For) {
        return Ok(false);
    }
    if !ahead.eat(Symbol::LeftParen) {
        return Ok(false);
    }
    match may_typed(&mut ahead) {
        Ok((is_rest, _)) => {
            if is_rest {
                return Ok(false);
            }
        }
        Err(ReadError::Refused) => return Ok(false),
        Err(ReadError::OutOfMemory) => return Err(ReadError::OutOfMemory),
    }
    if name_of(ahead.kind()).is_none() {
        return Ok(false);
    }
    ahead.advance();
    if ahead.eat_keyword(Keyword::In) {
        return Ok(true);
    }
    Ok(ahead.eat(Symbol::Colon))
}

impl<
    'a,
    F: Fn(Global, &[Token], Inner, &mut Tokens<'_>) -> Result<Nested, ReadError>,
    G: Fn(Global, &[Token], usize, usize, &mut usize) -> Result<Closure, ReadError> + Copy,
> Blocks<'a, F, G> {
    pub fn for_stmt(&self, cursor: &mut Tokens<'_>) -> Result<Stmt, ReadError>
        requires knot { Knot self.now.values.below (F.pre self.now.nested) (F.post self.now.nested) (G.pre self.now.values.body) (G.post self.now.values.body) }
        requires within { length cursor.old.rest.now ≤ self.now.values.below }
        requires next { NextIs keyword.For cursor.old.rest.now }
        ensures { Exactly (Stopped (IsStmt self.now.values.tokens.now)) result cursor.old.rest.now cursor.new.rest.now }
    {
        if is_for_in(cursor)? {
            if !self.begins_parts(cursor)? {
                return self.for_in(cursor);
            }
        }
        self.for_parts(cursor)
    }

    /// Whether an expression and a `;` stand behind the `(` of a `for`. The error is want of memory.
    fn begins_parts(&self, cursor: &Tokens<'_>) -> Result<bool, ReadError>
        ensures { MatchResult result (λ found. MatchBool found (BeginsParts self.now.values.tokens.now cursor.now.rest.now) (BeginsParts self.now.values.tokens.now cursor.now.rest.now → ⊥)) (λ e. e ≡ OutOfMemory) }
    {
        let mut ahead = Tokens {
            rest: cursor.rest,
            furthest: 0,
        };
        if !ahead.eat_keyword(Keyword::For) {
            return Ok(false);
        }
        if !ahead.eat(Symbol::LeftParen) {
            return Ok(false);
        }
        if begins_typed(&ahead) {
            return Ok(false);
        }
        match read_expr(self.values.alloc, self.values.tokens.len(), &mut ahead) {
            Ok(_) => Ok(ahead.sees(Symbol::Semicolon)),
            Err(ReadError::Refused) => Ok(false),
            Err(ReadError::OutOfMemory) => Err(ReadError::OutOfMemory),
        }
    }

    /// A loop over the elements of a value.
    fn for_in(&self, cursor: &mut Tokens<'_>) -> Result<Stmt, ReadError>
        requires knot { Knot self.now.values.below (F.pre self.now.nested) (F.post self.now.nested) (G.pre self.now.values.body) (G.post self.now.values.body) }
        requires within { length cursor.old.rest.now ≤ self.now.values.below }
        requires head { IsForInHead cursor.old.rest.now }
        requires parts { BeginsParts self.now.values.tokens.now cursor.old.rest.now → ⊥ }
        ensures { Exactly (Stopped (IsStmt self.now.values.tokens.now)) result cursor.old.rest.now cursor.new.rest.now }
    {
        let place = cursor.place();
        cursor.expect_keyword(Keyword::For)?;
        cursor.expect(Symbol::LeftParen)?;
        let (_, written) = may_typed(cursor)?;
        let ident = ident(cursor)?;
        if !cursor.eat_keyword(Keyword::In) {
            cursor.expect(Symbol::Colon)?;
        }
        let value = Boxed::new(self.values.alloc, self.values.value(cursor)?)?;
        cursor.expect(Symbol::RightParen)?;
        may_line(cursor);
        let body = Boxed::new(self.values.alloc, self.body_stmt(cursor)?)?;
        Ok(Stmt::ForIn(place, written, ident, value, body))
    }

    /// A loop with a beginning, a test and a step.
    fn for_parts(&self, cursor: &mut Tokens<'_>) -> Result<Stmt, ReadError>
        requires knot { Knot self.now.values.below (F.pre self.now.nested) (F.post self.now.nested) (G.pre self.now.values.body) (G.post self.now.values.body) }
        requires within { length cursor.old.rest.now ≤ self.now.values.below }
        requires next { NextIs keyword.For cursor.old.rest.now }
        requires head { IsForInHead cursor.old.rest.now → BeginsParts self.now.values.tokens.now cursor.old.rest.now }
        ensures { Exactly (Stopped (IsStmt self.now.values.tokens.now)) result cursor.old.rest.now cursor.new.rest.now }
    {
        let place = cursor.place();
        cursor.expect_keyword(Keyword::For)?;
        cursor.expect(Symbol::LeftParen)?;
        let first = self.may_begin(cursor)?;
        cursor.expect(Symbol::Semicolon)?;
        let test = self.may_value(cursor)?;
        cursor.expect(Symbol::Semicolon)?;
        let step = self.may_value(cursor)?;
        cursor.expect(Symbol::RightParen)?;
        may_line(cursor);
        let body = Boxed::new(self.values.alloc, self.body_stmt(cursor)?)?;
        Ok(Stmt::For(place, first, test, step, body))
    }

    /// A declaration or an expression before a `;`, or nothing.
    fn may_begin(&self, cursor: &mut Tokens<'_>) -> Result<Option<Boxed<Stmt>>, ReadError>
        requires knot { Knot self.now.values.below (F.pre self.now.nested) (F.post self.now.nested) (G.pre self.now.values.body) (G.post self.now.values.body) }
        requires within { length cursor.old.rest.now ≤ self.now.values.below }
        ensures { Exactly (Stopped (MayBegin self.now.values.tokens.now)) result cursor.old.rest.now cursor.new.rest.now }
    {
        if cursor.sees(Symbol::Semicolon) {
            return Ok(None);
        }
        if begins_decl(cursor) {
            let decl = Stmt::Decl(self.values.decl(cursor)?);
            return Ok(Some(Boxed::new(self.values.alloc, decl)?));
        }
        let value = Boxed::new(self.values.alloc, self.values.value(cursor)?)?;
        Ok(Some(Boxed::new(self.values.alloc, Stmt::Expr(value))?))
    }

    /// An expression, or nothing.
    fn may_value(&self, cursor: &mut Tokens<'_>) -> Result<Option<Boxed<Expr>>, ReadError>
        requires knot { Knot self.now.values.below (F.pre self.now.nested) (F.post self.now.nested) (G.pre self.now.values.body) (G.post self.now.values.body) }
        requires within { length cursor.old.rest.now ≤ self.now.values.below }
        ensures { Exactly (Stopped (MayValue self.now.values.tokens.now)) result cursor.old.rest.now cursor.new.rest.now }
    {
        if begins_expr(cursor.kind()) {
            return Ok(Some(Boxed::new(self.values.alloc, self.values.value(cursor)?)?));
        }
        cursor.expect_stop()?;
        Ok(None)
    }
}
