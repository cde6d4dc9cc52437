//! Primaries, and the suffixes behind them.

ghost use Rattle.std.specs.Prelude.{◌≡◌, ◌≢◌, ℕ, ◌≤◌, length, None};
ghost use Rattle.gv_spelling.specs.declared.kinds.Keyword.TheVariants as keyword;
ghost use Rattle.gv_spelling.specs.declared.kinds.Symbol.TheVariants as symbol;
ghost use Rattle.gv_lex.specs.declared.token.TokenKind.TheVariants as kind;
ghost use Rattle.gv_lex.specs.declared.token.Word.TheVariants as word;
ghost use Rattle.gv_grammar.specs.Tokens.{kind_of, member_of, postfix_of};
ghost use Rattle.gv_grammar.specs.Exprs.{IsPath, GoesPath, IsSuffix, IsMemberName, IsPrimary};
ghost use Rattle.gv_cursor.specs.Reading.{Reads, Extends};
ghost use Rattle.gv_exprs.specs.Nests.{Nests};

use crate::reader::{Exprs, Inner};
use gv_cursor::{
    ReadError, Tokens, atom_of, closure, closures, member_name_of, member_of, name_of, postfix_of,
    takes_closures, text_of, type_name_of,
};
use gv_spelling::{Keyword, Symbol};
use gv_tree::{Expr, Ident, Label};
use sqlite_items::{Boxed, Items};
use std::alloc::Global;

impl<F: Fn(Global, usize, Inner, &mut Tokens<'_>) -> Result<Expr, ReadError>> Exprs<F> {
    pub fn path(&self, tokens: &mut Tokens<'_>) -> Result<Expr, ReadError>
        requires nests { Nests self.now.below (F.pre self.now.nested) (F.post self.now.nested) }
        requires within { length tokens.old.rest.now ≤ self.now.below }
        ensures { Reads (IsPath self.now.all) result tokens.old.rest.now tokens.new.rest.now }
    {
        let left = self.primary(tokens)?;
        self.path_tail(tokens, left)
    }

    fn path_tail(&self, tokens: &mut Tokens<'_>, left: Expr) -> Result<Expr, ReadError>
        requires nests { Nests self.now.below (F.pre self.now.nested) (F.post self.now.nested) }
        requires within { length tokens.old.rest.now ≤ self.now.below }
        ensures { Reads (GoesPath self.now.all left) result tokens.old.rest.now tokens.new.rest.now }
    {
        let (longer, found) = self.suffix(tokens, left)?;
        if found {
            self.path_tail(tokens, longer)
        } else {
            Ok(longer)
        }
    }

    // ---- suffixes

    /// The tree with one suffix more, and whether there is one.
    pub fn suffix(&self, tokens: &mut Tokens<'_>, left: Expr) -> Result<(Expr, bool), ReadError>
        requires nests { Nests self.now.below (F.pre self.now.nested) (F.post self.now.nested) }
        requires within { length tokens.old.rest.now ≤ self.now.below }
        ensures { Extends (IsSuffix self.now.all) left result tokens.old.rest.now tokens.new.rest.now }
    {
        if tokens.sees(Symbol::LeftParen) {
            return self.call(tokens, left);
        }
        if tokens.sees(Symbol::LeftBracket) {
            return self.index(tokens, left);
        }
        if member_of(tokens.kind()).is_some() {
            return self.member(tokens, left);
        }
        if tokens.sees(Symbol::FieldDot) {
            return self.field(tokens, left);
        }
        if let Some(op) = postfix_of(tokens.kind()) {
            let place = tokens.place();
            tokens.advance();
            return Ok((Expr::Unary(place, op, Boxed::new(self.alloc, left)?), true));
        }
        self.closure_arguments(tokens, left)
    }

    fn call(&self, tokens: &mut Tokens<'_>, left: Expr) -> Result<(Expr, bool), ReadError>
        requires nests { Nests self.now.below (F.pre self.now.nested) (F.post self.now.nested) }
        requires within { length tokens.old.rest.now ≤ self.now.below }
        requires next { kind_of tokens.old.rest.now ≡ kind.Symbol symbol.LeftParen }
        ensures { Extends (IsSuffix self.now.all) left result tokens.old.rest.now tokens.new.rest.now }
    {
        let before = tokens.rest;
        let place = tokens.place();
        tokens.advance();
        match self.arguments(tokens) {
            Ok(args) => {
                let all_args = closures(self.alloc, self.all, args, tokens)?;
                Ok((
                    Expr::Call(place, Boxed::new(self.alloc, left)?, all_args),
                    true,
                ))
            }
            Err(ReadError::OutOfMemory) => Err(ReadError::OutOfMemory),
            Err(ReadError::Refused) => {
                tokens.rest = before;
                Ok((left, false))
            }
        }
    }

    fn index(&self, tokens: &mut Tokens<'_>, left: Expr) -> Result<(Expr, bool), ReadError>
        requires nests { Nests self.now.below (F.pre self.now.nested) (F.post self.now.nested) }
        requires within { length tokens.old.rest.now ≤ self.now.below }
        requires next { kind_of tokens.old.rest.now ≡ kind.Symbol symbol.LeftBracket }
        ensures { Extends (IsSuffix self.now.all) left result tokens.old.rest.now tokens.new.rest.now }
    {
        let before = tokens.rest;
        let place = tokens.place();
        tokens.advance();
        match self.indexes(tokens) {
            Ok(indexes) => Ok((
                Expr::Index(place, Boxed::new(self.alloc, left)?, indexes),
                true,
            )),
            Err(ReadError::OutOfMemory) => Err(ReadError::OutOfMemory),
            Err(ReadError::Refused) => {
                tokens.rest = before;
                Ok((left, false))
            }
        }
    }

    fn member(&self, tokens: &mut Tokens<'_>, left: Expr) -> Result<(Expr, bool), ReadError>
        requires nests { Nests self.now.below (F.pre self.now.nested) (F.post self.now.nested) }
        requires within { length tokens.old.rest.now ≤ self.now.below }
        requires next { member_of (kind_of tokens.old.rest.now) ≢ None }
        ensures { Extends (IsSuffix self.now.all) left result tokens.old.rest.now tokens.new.rest.now }
    {
        let before = tokens.rest;
        let place = tokens.place();
        let Some(op) = member_of(tokens.kind()) else {
            return Ok((left, false));
        };
        tokens.advance();
        match self.member_name(tokens) {
            Ok(label) => Ok((
                Expr::Member(place, op, Boxed::new(self.alloc, left)?, label),
                true,
            )),
            Err(ReadError::OutOfMemory) => Err(ReadError::OutOfMemory),
            Err(ReadError::Refused) => {
                tokens.rest = before;
                Ok((left, false))
            }
        }
    }

    fn field(&self, tokens: &mut Tokens<'_>, left: Expr) -> Result<(Expr, bool), ReadError>
        requires next { kind_of tokens.old.rest.now ≡ kind.Symbol symbol.FieldDot }
        ensures { Extends (IsSuffix self.now.all) left result tokens.old.rest.now tokens.new.rest.now }
    {
        let before = tokens.rest;
        let place = tokens.place();
        tokens.advance();
        let Some(name) = name_of(tokens.kind()) else {
            tokens.refuse();
            tokens.rest = before;
            return Ok((left, false));
        };
        let ident = Ident {
            place: tokens.place(),
            name,
        };
        tokens.advance();
        Ok((
            Expr::Field(place, Boxed::new(self.alloc, left)?, ident),
            true,
        ))
    }

    /// Closures as arguments, where no suffix of another form begins.
    fn closure_arguments(
        &self,
        tokens: &mut Tokens<'_>,
        left: Expr,
    ) -> Result<(Expr, bool), ReadError>
        requires no_paren { kind_of tokens.old.rest.now ≢ kind.Symbol symbol.LeftParen }
        requires no_bracket { kind_of tokens.old.rest.now ≢ kind.Symbol symbol.LeftBracket }
        requires no_member { member_of (kind_of tokens.old.rest.now) ≡ None }
        requires no_field { kind_of tokens.old.rest.now ≢ kind.Symbol symbol.FieldDot }
        requires no_postfix { postfix_of (kind_of tokens.old.rest.now) ≡ None }
        ensures { Extends (IsSuffix self.now.all) left result tokens.old.rest.now tokens.new.rest.now }
    {
        if !takes_closures(&left) {
            return Ok((left, false));
        }
        let place = tokens.place();
        let args = closures(self.alloc, self.all, Items::new(self.alloc), tokens)?;
        if args.is_empty() {
            return Ok((left, false));
        }
        Ok((Expr::Call(place, Boxed::new(self.alloc, left)?, args), true))
    }

    /// The name of a member, behind what joins it to its receiver.
    fn member_name(&self, tokens: &mut Tokens<'_>) -> Result<Label, ReadError>
        requires nests { Nests self.now.below (F.pre self.now.nested) (F.post self.now.nested) }
        requires within { length tokens.old.rest.now ≤ self.now.below }
        ensures { Reads (IsMemberName self.now.all) result tokens.old.rest.now tokens.new.rest.now }
    {
        let place = tokens.place();
        if let Some(name) = member_name_of(tokens.kind()) {
            tokens.advance();
            return Ok(Label::Name(Ident { place, name }));
        }
        if let Some(name) = text_of(tokens.kind()) {
            tokens.advance();
            return Ok(Label::Text(Ident { place, name }));
        }
        Ok(Label::GString(place, self.gstring(tokens)?))
    }

    // ---- primaries

    pub fn primary(&self, tokens: &mut Tokens<'_>) -> Result<Expr, ReadError>
        requires nests { Nests self.now.below (F.pre self.now.nested) (F.post self.now.nested) }
        requires within { length tokens.old.rest.now ≤ self.now.below }
        ensures { Reads (IsPrimary self.now.all) result tokens.old.rest.now tokens.new.rest.now }
    {
        let place = tokens.place();
        if let Some(atom) = atom_of(tokens.kind()) {
            tokens.advance();
            return Ok(Expr::Atom(place, atom));
        }
        if tokens.sees(Symbol::LeftParen) {
            return self.parens(tokens);
        }
        if tokens.sees(Symbol::LeftBracket) {
            return self.brackets(tokens);
        }
        if tokens.sees(Symbol::LeftBrace) {
            return match closure(self.all, tokens) {
                Some(closure) => Ok(closure),
                None => Err(tokens.refuse()),
            };
        }
        if tokens.sees_keyword(Keyword::New) {
            return self.new_object(tokens);
        }
        Ok(Expr::GString(place, self.gstring(tokens)?))
    }

    fn parens(&self, tokens: &mut Tokens<'_>) -> Result<Expr, ReadError>
        requires nests { Nests self.now.below (F.pre self.now.nested) (F.post self.now.nested) }
        requires within { length tokens.old.rest.now ≤ self.now.below }
        requires next { kind_of tokens.old.rest.now ≡ kind.Symbol symbol.LeftParen }
        ensures { Reads (IsPrimary self.now.all) result tokens.old.rest.now tokens.new.rest.now }
    {
        let place = tokens.place();
        tokens.advance();
        let inner = self.inner_expr(tokens)?;
        tokens.expect(Symbol::RightParen)?;
        Ok(Expr::Paren(place, Boxed::new(self.alloc, inner)?))
    }

    fn brackets(&self, tokens: &mut Tokens<'_>) -> Result<Expr, ReadError>
        requires nests { Nests self.now.below (F.pre self.now.nested) (F.post self.now.nested) }
        requires within { length tokens.old.rest.now ≤ self.now.below }
        requires next { kind_of tokens.old.rest.now ≡ kind.Symbol symbol.LeftBracket }
        ensures { Reads (IsPrimary self.now.all) result tokens.old.rest.now tokens.new.rest.now }
    {
        let place = tokens.place();
        tokens.advance();
        self.list_or_map(place, tokens)
    }

    fn new_object(&self, tokens: &mut Tokens<'_>) -> Result<Expr, ReadError>
        requires nests { Nests self.now.below (F.pre self.now.nested) (F.post self.now.nested) }
        requires within { length tokens.old.rest.now ≤ self.now.below }
        requires next { (n : ℕ) × (kind_of tokens.old.rest.now ≡ kind.Word (word.Keyword keyword.New) n) }
        ensures { Reads (IsPrimary self.now.all) result tokens.old.rest.now tokens.new.rest.now }
    {
        let place = tokens.place();
        tokens.expect_keyword(Keyword::New)?;
        let Some(name) = type_name_of(tokens.kind()) else {
            return Err(tokens.refuse());
        };
        let ident = Ident {
            place: tokens.place(),
            name,
        };
        tokens.advance();
        tokens.expect(Symbol::LeftParen)?;
        let args = self.arguments(tokens)?;
        Ok(Expr::New(place, ident, args))
    }
}
