//! Declarations and parameters.

ghost use Rattle.std.specs.Prelude.{◌≡◌, ◌≤◌, List, length, ◌⊎◌};
ghost use Rattle.gv_spelling.specs.declared.kinds.Symbol.TheVariants as symbol;
ghost use Rattle.gv_lex.specs.declared.token.Token.{Token};
ghost use Rattle.gv_grammar.specs.Stmts.{AreParams, MayInitial, IsDecl, IsVarType, AreVars, IsVar, AreNames};
ghost use Rattle.gv_cursor.specs.Reading.{Exactly, Stopped};
ghost use Rattle.gv_fill.specs.Filled.{Bodies};
ghost use Rattle.gv_decls.specs.Phrases.{IsName, IsTyped, IsParamAlone};

use crate::values::Values;
use crate::words::{is_ellipsis, is_name_token};
use gv_cursor::{ReadError, Tokens, name_of, type_of};
use gv_lex::Token;
use gv_spelling::{Keyword, Symbol};
use gv_tree::{Closure, Decl, Expr, Ident, Param, Var, VarType};
use sqlite_items::{Boxed, Items};
use std::alloc::Global;

/// A name.
pub fn ident(cursor: &mut Tokens<'_>) -> Result<Ident, ReadError>
    ensures { Exactly (IsName) result cursor.old.rest.now cursor.new.rest.now }
{
    let place = cursor.place();
    let Some(name) = name_of(cursor.kind()) else {
        return Err(cursor.refuse());
    };
    cursor.advance();
    Ok(Ident { place, name })
}

/// `def`, or a type.
pub fn var_type(cursor: &mut Tokens<'_>) -> Result<VarType, ReadError>
    ensures { (tokens : List Token) → Exactly (IsVarType tokens) result cursor.old.rest.now cursor.new.rest.now }
{
    if cursor.eat_keyword(Keyword::Def) {
        return Ok(VarType::Def);
    }
    let Some(written) = type_of(cursor.place(), cursor.kind()) else {
        return Err(cursor.refuse());
    };
    cursor.advance();
    Ok(VarType::Typed(written))
}

/// Whether the next name takes the rest of the arguments, and how it is declared. Refused before a name
/// alone with a `...` behind it.
pub fn may_typed(cursor: &mut Tokens<'_>) -> Result<(bool, Option<VarType>), ReadError>
    ensures { (tokens : List Token) → Exactly (IsTyped tokens) result cursor.old.rest.now cursor.new.rest.now }
{
    if cursor.eat_keyword(Keyword::Def) {
        return Ok((false, Some(VarType::Def)));
    }
    if let Some(written) = type_of(cursor.place(), cursor.kind()) {
        if is_ellipsis(cursor.kind_behind()) {
            cursor.advance();
            cursor.advance();
            return Ok((true, Some(VarType::Typed(written))));
        }
        if is_name_token(cursor.kind_behind()) {
            cursor.advance();
            return Ok((false, Some(VarType::Typed(written))));
        }
    }
    if is_name_token(cursor.kind()) {
        if !is_ellipsis(cursor.kind_behind()) {
            return Ok((false, None));
        }
    }
    Err(cursor.refuse())
}

impl<
    'a,
    G: Fn(Global, &[Token], usize, usize, &mut usize) -> Result<Closure, ReadError> + Copy,
> Values<'a, G> {
    // ---- parameters

    /// Parameters, and the symbol behind them.
    pub fn params(&self, close: Symbol, cursor: &mut Tokens<'_>) -> Result<Items<Param>, ReadError>
        requires bodies { Bodies self.now.below (G.pre self.now.body) (G.post self.now.body) }
        requires within { length cursor.old.rest.now ≤ self.now.below }
        requires close { (close ≡ symbol.RightParen) ⊎ (close ≡ symbol.Arrow) }
        ensures { Exactly (AreParams self.now.tokens.now close) result cursor.old.rest.now cursor.new.rest.now }
    {
        let mut params = Items::new(self.alloc);
        if cursor.eat(close) {
            return Ok(params);
        }
        loop {
            let param = self.param(cursor)?;
            let is_rest = param.is_rest;
            params.push(param)?;
            if cursor.eat(close) {
                return Ok(params);
            }
            if is_rest {
                return Err(cursor.refuse());
            }
            cursor.expect(Symbol::Comma)?;
        }
    }

    /// A parameter, with no `...` behind it.
    fn param(&self, cursor: &mut Tokens<'_>) -> Result<Param, ReadError>
        requires bodies { Bodies self.now.below (G.pre self.now.body) (G.post self.now.body) }
        requires within { length cursor.old.rest.now ≤ self.now.below }
        ensures { Exactly (IsParamAlone self.now.tokens.now) result cursor.old.rest.now cursor.new.rest.now }
    {
        let is_final = cursor.eat_keyword(Keyword::Final);
        let (is_rest, written) = may_typed(cursor)?;
        let ident = ident(cursor)?;
        let initial = self.may_initial(cursor)?;
        if cursor.sees(Symbol::Ellipsis) {
            return Err(cursor.refuse());
        }
        Ok(Param {
            ident,
            is_final,
            written,
            is_rest,
            initial,
        })
    }

    /// A `=` and an expression, or nothing.
    fn may_initial(&self, cursor: &mut Tokens<'_>) -> Result<Option<Boxed<Expr>>, ReadError>
        requires bodies { Bodies self.now.below (G.pre self.now.body) (G.post self.now.body) }
        requires within { length cursor.old.rest.now ≤ self.now.below }
        ensures { Exactly (Stopped (MayInitial self.now.tokens.now)) result cursor.old.rest.now cursor.new.rest.now }
    {
        if cursor.eat(Symbol::Assign) {
            return Ok(Some(Boxed::new(self.alloc, self.value(cursor)?)?));
        }
        cursor.expect_stop()?;
        Ok(None)
    }

    // ---- variables

    /// Declared variables, one or more, and how they are declared.
    pub fn decl(&self, cursor: &mut Tokens<'_>) -> Result<Decl, ReadError>
        requires bodies { Bodies self.now.below (G.pre self.now.body) (G.post self.now.body) }
        requires within { length cursor.old.rest.now ≤ self.now.below }
        ensures { Exactly (Stopped (IsDecl self.now.tokens.now)) result cursor.old.rest.now cursor.new.rest.now }
    {
        let place = cursor.place();
        let is_final = cursor.eat_keyword(Keyword::Final);
        let written = var_type(cursor)?;
        let vars = self.vars(cursor)?;
        Ok(Decl {
            place,
            is_final,
            written,
            vars,
        })
    }

    /// Declared variables, one or more.
    pub fn vars(&self, cursor: &mut Tokens<'_>) -> Result<Items<Var>, ReadError>
        requires bodies { Bodies self.now.below (G.pre self.now.body) (G.post self.now.body) }
        requires within { length cursor.old.rest.now ≤ self.now.below }
        ensures { Exactly (Stopped (AreVars self.now.tokens.now)) result cursor.old.rest.now cursor.new.rest.now }
    {
        let mut vars = Items::new(self.alloc);
        loop {
            vars.push(self.var(cursor)?)?;
            if !cursor.eat(Symbol::Comma) {
                return Ok(vars);
            }
        }
    }

    fn var(&self, cursor: &mut Tokens<'_>) -> Result<Var, ReadError>
        requires bodies { Bodies self.now.below (G.pre self.now.body) (G.post self.now.body) }
        requires within { length cursor.old.rest.now ≤ self.now.below }
        ensures { Exactly (Stopped (IsVar self.now.tokens.now)) result cursor.old.rest.now cursor.new.rest.now }
    {
        let ident = ident(cursor)?;
        if cursor.eat(Symbol::Assign) {
            let initial = Some(Boxed::new(self.alloc, self.full_value(cursor)?)?);
            return Ok(Var { ident, initial });
        }
        cursor.expect_stop()?;
        Ok(Var {
            ident,
            initial: None,
        })
    }

    /// Names, and the parenthesis behind them.
    pub fn names(&self, cursor: &mut Tokens<'_>) -> Result<Items<Ident>, ReadError>
        ensures { Exactly (AreNames self.now.tokens.now) result cursor.old.rest.now cursor.new.rest.now }
    {
        let mut names = Items::new(self.alloc);
        loop {
            names.push(ident(cursor)?)?;
            if cursor.eat(Symbol::RightParen) {
                return Ok(names);
            }
            cursor.expect(Symbol::Comma)?;
        }
    }
}
