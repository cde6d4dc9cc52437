//! Operators, from the loosest to the tightest.

ghost use Rattle.std.specs.Prelude.{◌≡◌, ◌<◌, ◌≤◌, length};
ghost use Rattle.gv_spelling.specs.declared.kinds.Symbol.TheVariants as symbol;
ghost use Rattle.gv_lex.specs.declared.token.TokenKind.TheVariants as kind;
ghost use Rattle.gv_grammar.specs.Tokens.{kind_of};
ghost use Rattle.gv_grammar.specs.Exprs.{IsExpr, GoesExpr, IsCond, GoesCond, AreChoices, IsBin, GoesBin, IsUnary};
ghost use Rattle.gv_cursor.specs.Reading.{Reads};
ghost use Rattle.gv_exprs.specs.Nests.{Nests};

use crate::reader::{Exprs, Inner};
use gv_cursor::{
    ReadError, Tokens, assign_of, binary_of, is_barred, is_target, joined_by, level_of, prefix_of,
    type_of, typing_of,
};
use gv_spelling::Symbol;
use gv_tree::Expr;
use sqlite_items::Boxed;
use std::alloc::Global;

/// The loosest level of the operators between two operands.
const LOOSEST: u8 = 10;

/// The level of `instanceof` and `as`.
const TYPING_LEVEL: u8 = 4;

impl<F: Fn(Global, usize, Inner, &mut Tokens<'_>) -> Result<Expr, ReadError>> Exprs<F> {
    pub fn expr(&self, tokens: &mut Tokens<'_>) -> Result<Expr, ReadError>
        requires nests { Nests self.now.below (F.pre self.now.nested) (F.post self.now.nested) }
        requires within { length tokens.old.rest.now ≤ self.now.below }
        ensures { Reads (IsExpr self.now.all) result tokens.old.rest.now tokens.new.rest.now }
    {
        let left = self.cond(tokens)?;
        self.expr_tail(tokens, left)
    }

    fn expr_tail(&self, tokens: &mut Tokens<'_>, left: Expr) -> Result<Expr, ReadError>
        requires nests { Nests self.now.below (F.pre self.now.nested) (F.post self.now.nested) }
        requires within { length tokens.old.rest.now ≤ self.now.below }
        ensures { Reads (GoesExpr self.now.all left) result tokens.old.rest.now tokens.new.rest.now }
    {
        let Some(op) = assign_of(tokens.kind()) else {
            return Ok(left);
        };
        if !is_target(&left) {
            return Ok(left);
        }
        let before = tokens.rest;
        let place = tokens.place();
        tokens.advance();
        match self.inner_expr(tokens) {
            Ok(right) => Ok(Expr::Assign(
                place,
                op,
                Boxed::new(self.alloc, left)?,
                Boxed::new(self.alloc, right)?,
            )),
            Err(ReadError::OutOfMemory) => Err(ReadError::OutOfMemory),
            Err(ReadError::Refused) => {
                tokens.rest = before;
                Ok(left)
            }
        }
    }

    pub fn cond(&self, tokens: &mut Tokens<'_>) -> Result<Expr, ReadError>
        requires nests { Nests self.now.below (F.pre self.now.nested) (F.post self.now.nested) }
        requires within { length tokens.old.rest.now ≤ self.now.below }
        ensures { Reads (IsCond self.now.all) result tokens.old.rest.now tokens.new.rest.now }
    {
        let left = self.binary(tokens, LOOSEST)?;
        self.cond_tail(tokens, left)
    }

    fn cond_tail(&self, tokens: &mut Tokens<'_>, left: Expr) -> Result<Expr, ReadError>
        requires nests { Nests self.now.below (F.pre self.now.nested) (F.post self.now.nested) }
        requires within { length tokens.old.rest.now ≤ self.now.below }
        ensures { Reads (GoesCond self.now.all left) result tokens.old.rest.now tokens.new.rest.now }
    {
        if tokens.sees(Symbol::Question) {
            return self.choice_tail(tokens, left);
        }
        if tokens.sees(Symbol::Elvis) {
            return self.default_tail(tokens, left);
        }
        Ok(left)
    }

    fn choice_tail(&self, tokens: &mut Tokens<'_>, left: Expr) -> Result<Expr, ReadError>
        requires nests { Nests self.now.below (F.pre self.now.nested) (F.post self.now.nested) }
        requires within { length tokens.old.rest.now ≤ self.now.below }
        requires next { kind_of tokens.old.rest.now ≡ kind.Symbol symbol.Question }
        ensures { Reads (GoesCond self.now.all left) result tokens.old.rest.now tokens.new.rest.now }
    {
        let before = tokens.rest;
        let place = tokens.place();
        tokens.advance();
        match self.choices(tokens) {
            Ok((yes, no)) => Ok(Expr::Choice(
                place,
                Boxed::new(self.alloc, left)?,
                Some(Boxed::new(self.alloc, yes)?),
                Boxed::new(self.alloc, no)?,
            )),
            Err(ReadError::OutOfMemory) => Err(ReadError::OutOfMemory),
            Err(ReadError::Refused) => {
                tokens.rest = before;
                Ok(left)
            }
        }
    }

    fn default_tail(&self, tokens: &mut Tokens<'_>, left: Expr) -> Result<Expr, ReadError>
        requires nests { Nests self.now.below (F.pre self.now.nested) (F.post self.now.nested) }
        requires within { length tokens.old.rest.now ≤ self.now.below }
        requires next { kind_of tokens.old.rest.now ≡ kind.Symbol symbol.Elvis }
        ensures { Reads (GoesCond self.now.all left) result tokens.old.rest.now tokens.new.rest.now }
    {
        let before = tokens.rest;
        let place = tokens.place();
        tokens.advance();
        match self.inner_cond(tokens) {
            Ok(right) => Ok(Expr::Choice(
                place,
                Boxed::new(self.alloc, left)?,
                None,
                Boxed::new(self.alloc, right)?,
            )),
            Err(ReadError::OutOfMemory) => Err(ReadError::OutOfMemory),
            Err(ReadError::Refused) => {
                tokens.rest = before;
                Ok(left)
            }
        }
    }

    /// What stands behind a `?`.
    fn choices(&self, tokens: &mut Tokens<'_>) -> Result<(Expr, Expr), ReadError>
        requires nests { Nests self.now.below (F.pre self.now.nested) (F.post self.now.nested) }
        requires shorter { length tokens.old.rest.now < self.now.below }
        ensures { Reads (AreChoices self.now.all) result tokens.old.rest.now tokens.new.rest.now }
    {
        let yes = self.inner_expr(tokens)?;
        tokens.expect(Symbol::Colon)?;
        let no = self.inner_expr(tokens)?;
        Ok((yes, no))
    }

    /// An expression with operators of the first `level` levels.
    #[cycle(binary)]
    pub fn binary(&self, tokens: &mut Tokens<'_>, level: u8) -> Result<Expr, ReadError>
        requires nests { Nests self.now.below (F.pre self.now.nested) (F.post self.now.nested) }
        requires within { length tokens.old.rest.now ≤ self.now.below }
        ensures { Reads (IsBin self.now.all level) result tokens.old.rest.now tokens.new.rest.now }
    {
        if level == 0 {
            return self.unary(tokens);
        }
        let left = self.binary(tokens, level - 1)?;
        self.binary_tail(tokens, level - 1, false, left)
    }

    /// Operators of the level behind `tighter`. `joined` says whether one that joins at most once is
    /// in `left`.
    #[cycle(binary)]
    fn binary_tail(
        &self,
        tokens: &mut Tokens<'_>,
        tighter: u8,
        joined: bool,
        left: Expr,
    ) -> Result<Expr, ReadError>
        requires nests { Nests self.now.below (F.pre self.now.nested) (F.post self.now.nested) }
        requires within { length tokens.old.rest.now ≤ self.now.below }
        requires level { tighter < 255 }
        ensures { Reads (GoesBin self.now.all tighter joined left) result tokens.old.rest.now tokens.new.rest.now }
    {
        let before = tokens.rest;
        let place = tokens.place();
        if let Some(op) = binary_of(tokens.kind()) {
            if level_of(op) != tighter + 1 {
                return Ok(left);
            }
            if is_barred(joined, op) {
                return Ok(left);
            }
            tokens.advance();
            return match self.binary(tokens, tighter) {
                Ok(right) => {
                    let longer = Expr::Binary(
                        place,
                        op,
                        Boxed::new(self.alloc, left)?,
                        Boxed::new(self.alloc, right)?,
                    );
                    self.binary_tail(tokens, tighter, joined_by(joined, op), longer)
                }
                Err(ReadError::OutOfMemory) => Err(ReadError::OutOfMemory),
                Err(ReadError::Refused) => {
                    tokens.rest = before;
                    Ok(left)
                }
            };
        }
        let Some(op) = typing_of(tokens.kind()) else {
            return Ok(left);
        };
        if TYPING_LEVEL != tighter + 1 {
            return Ok(left);
        }
        if joined {
            return Ok(left);
        }
        tokens.advance();
        let Some(written) = type_of(tokens.place(), tokens.kind()) else {
            tokens.refuse();
            tokens.rest = before;
            return Ok(left);
        };
        tokens.advance();
        let longer = Expr::Typed(place, op, Boxed::new(self.alloc, left)?, written);
        self.binary_tail(tokens, tighter, true, longer)
    }

    pub fn unary(&self, tokens: &mut Tokens<'_>) -> Result<Expr, ReadError>
        requires nests { Nests self.now.below (F.pre self.now.nested) (F.post self.now.nested) }
        requires within { length tokens.old.rest.now ≤ self.now.below }
        ensures { Reads (IsUnary self.now.all) result tokens.old.rest.now tokens.new.rest.now }
    {
        let Some(op) = prefix_of(tokens.kind()) else {
            return self.path(tokens);
        };
        let place = tokens.place();
        tokens.advance();
        let operand = self.inner_unary(tokens)?;
        Ok(Expr::Unary(place, op, Boxed::new(self.alloc, operand)?))
    }
}
