//! Strings with parts.

ghost use Rattle.std.specs.Prelude.{◌≡◌, ◌≢◌, ℕ, ◌<◌, ◌≤◌, length, MatchOption};
ghost use Rattle.gv_lex.specs.declared.token.Part.{Part as Form};
ghost use Rattle.gv_lex.specs.declared.token.Part.TheVariants as form;
ghost use Rattle.gv_lex.specs.declared.token.Piece.TheVariants as piece;
ghost use Rattle.gv_lex.specs.declared.token.TokenKind.TheVariants as kind;
ghost use Rattle.gv_grammar.specs.Exprs.{IsGString, AreParts, IsPart, GoesNames};
ghost use Rattle.gv_cursor.specs.Reading.{Reads};
ghost use Rattle.gv_exprs.specs.Nests.{Nests};

use crate::reader::{Exprs, Inner};
use gv_base::Name;
use gv_cursor::{ReadError, Tokens, name_of};
use gv_lex::{Part as Form, Piece, TokenKind};
use gv_spelling::Symbol;
use gv_tree::{Atom, Expr, GString, Ident, Label, MemberOp, Part};
use sqlite_items::{Boxed, Items};
use std::alloc::Global;

/// The text before the first part, and the form of that part.
fn head_of(next: TokenKind) -> Option<(Form, Name)>
    ensures { MatchOption result ((f : Form) (n : ℕ) → next ≢ kind.Text (piece.Head f) n) (λ found. next ≡ kind.Text (piece.Head found.0) found.1) }
{
    match next {
        TokenKind::Text(Piece::Head(form), text) => Some((form, text)),
        _ => None,
    }
}

/// The text between two parts, and the form of the second.
fn middle_of(next: TokenKind) -> Option<(Form, Name)>
    ensures { MatchOption result ((f : Form) (n : ℕ) → next ≢ kind.Text (piece.Middle f) n) (λ found. next ≡ kind.Text (piece.Middle found.0) found.1) }
{
    match next {
        TokenKind::Text(Piece::Middle(form), text) => Some((form, text)),
        _ => None,
    }
}

/// The text behind the last part.
fn tail_of(next: TokenKind) -> Option<Name>
    ensures { MatchOption result ((n : ℕ) → next ≢ kind.Text piece.Tail n) (λ n. next ≡ kind.Text piece.Tail n) }
{
    match next {
        TokenKind::Text(Piece::Tail, text) => Some(text),
        _ => None,
    }
}

impl<F: Fn(Global, usize, Inner, &mut Tokens<'_>) -> Result<Expr, ReadError>> Exprs<F> {
    pub fn gstring(&self, tokens: &mut Tokens<'_>) -> Result<GString, ReadError>
        requires nests { Nests self.now.below (F.pre self.now.nested) (F.post self.now.nested) }
        requires within { length tokens.old.rest.now ≤ self.now.below }
        ensures { Reads (IsGString self.now.all) result tokens.old.rest.now tokens.new.rest.now }
    {
        let Some((form, head)) = head_of(tokens.kind()) else {
            return Err(tokens.refuse());
        };
        tokens.advance();
        let parts = self.parts(form, tokens)?;
        Ok(GString { head, parts })
    }

    /// All parts, of which the first has this form.
    fn parts(&self, form: Form, tokens: &mut Tokens<'_>) -> Result<Items<Part>, ReadError>
        requires nests { Nests self.now.below (F.pre self.now.nested) (F.post self.now.nested) }
        requires shorter { length tokens.old.rest.now < self.now.below }
        ensures { Reads (AreParts self.now.all form) result tokens.old.rest.now tokens.new.rest.now }
    {
        let mut parts = Items::new(self.alloc);
        let mut next = form;
        loop {
            let (is_lazy, value) = self.part(next, tokens)?;
            let value = Boxed::new(self.alloc, value)?;
            if let Some(behind) = tail_of(tokens.kind()) {
                tokens.advance();
                parts.push(Part {
                    is_lazy,
                    value,
                    behind,
                })?;
                return Ok(parts);
            }
            let Some((then, behind)) = middle_of(tokens.kind()) else {
                return Err(tokens.refuse());
            };
            tokens.advance();
            parts.push(Part {
                is_lazy,
                value,
                behind,
            })?;
            next = then;
        }
    }

    /// Whether a part is lazy, and its value.
    fn part(&self, form: Form, tokens: &mut Tokens<'_>) -> Result<(bool, Expr), ReadError>
        requires nests { Nests self.now.below (F.pre self.now.nested) (F.post self.now.nested) }
        requires shorter { length tokens.old.rest.now < self.now.below }
        ensures { Reads (IsPart self.now.all form) result tokens.old.rest.now tokens.new.rest.now }
    {
        match form {
            Form::Braces => self.braces_part(tokens),
            Form::Path => self.path_part(tokens),
        }
    }

    fn braces_part(&self, tokens: &mut Tokens<'_>) -> Result<(bool, Expr), ReadError>
        requires nests { Nests self.now.below (F.pre self.now.nested) (F.post self.now.nested) }
        requires shorter { length tokens.old.rest.now < self.now.below }
        ensures { Reads (IsPart self.now.all form.Braces) result tokens.old.rest.now tokens.new.rest.now }
    {
        let is_lazy = tokens.eat(Symbol::Arrow);
        let value = self.inner_expr(tokens)?;
        tokens.expect_end()?;
        Ok((is_lazy, value))
    }

    fn path_part(&self, tokens: &mut Tokens<'_>) -> Result<(bool, Expr), ReadError>
        ensures { Reads (IsPart self.now.all form.Path) result tokens.old.rest.now tokens.new.rest.now }
    {
        let Some(name) = name_of(tokens.kind()) else {
            return Err(tokens.refuse());
        };
        let first = Expr::Atom(tokens.place(), Atom::Name(name));
        tokens.advance();
        let value = self.names(tokens, first)?;
        tokens.expect_end()?;
        Ok((false, value))
    }

    /// The names behind the first one.
    fn names(&self, tokens: &mut Tokens<'_>, left: Expr) -> Result<Expr, ReadError>
        ensures { Reads (GoesNames self.now.all left) result tokens.old.rest.now tokens.new.rest.now }
    {
        let before = tokens.rest;
        let place = tokens.place();
        if !tokens.eat(Symbol::Dot) {
            return Ok(left);
        }
        let Some(name) = name_of(tokens.kind()) else {
            tokens.refuse();
            tokens.rest = before;
            return Ok(left);
        };
        let ident = Ident {
            place: tokens.place(),
            name,
        };
        tokens.advance();
        let longer = Expr::Member(
            place,
            MemberOp::Dot,
            Boxed::new(self.alloc, left)?,
            Label::Name(ident),
        );
        self.names(tokens, longer)
    }
}
