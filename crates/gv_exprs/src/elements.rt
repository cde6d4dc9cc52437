//! Comma lists: arguments, indexes, lists and maps.

ghost use Rattle.std.specs.Prelude.{◌≡◌, ◌≢◌, ◌<◌, length, drop, true, false, [], ◌∷◌, Some, None, IfOk, MatchBool, MatchResult, ◌⊎◌};
ghost use Rattle.gv_base.specs.declared.refusal.Place.{Place};
ghost use Rattle.gv_spelling.specs.declared.kinds.Symbol.TheVariants as symbol;
ghost use Rattle.gv_lex.specs.declared.token.TokenKind.TheVariants as kind;
ghost use Rattle.gv_grammar.specs.Tokens.{kind_of, place_of};
ghost use Rattle.gv_grammar.specs.Exprs.{AreIndexes, AreArguments, IsArg, IsItem, IsEntry};
ghost use Rattle.gv_cursor.specs.Reading.{Reads, Exactly, Before};
ghost use Rattle.gv_cursor.specs.declared.error.ReadError.TheVariants.{Refused};
ghost use Rattle.gv_exprs.specs.Nests.{Nests};
ghost use Rattle.gv_exprs.specs.Elements as spec;
ghost use Rattle.gv_exprs.specs.Elements.{ends_element, IsElement, FollowsItem, FollowsEntry, IsListOrMap};

use crate::reader::{Exprs, Inner};
use gv_base::Place;
use gv_cursor::{ReadError, Tokens};
use gv_lex::{Piece, TokenKind, Word};
use gv_spelling::Symbol;
use gv_tree::{Arg, Entry, Expr, Ident, Item, Key, Label};
use sqlite_items::{Boxed, Items};
use std::alloc::{AllocError, Global};

/// An element of a comma list, before it is known as an argument, an item of a list or an entry of a
/// map.
#[derive(Drop)]
pub enum Element {
    Plain(Expr),
    Keyed(Key, Expr),
    /// A key in parentheses.
    Computed(Place, Expr, Expr),
    Spread(Place, Expr),
    SpreadMap(Place, Expr),
}

/// An element behind a `[`.
#[derive(Drop)]
pub enum ItemOrEntry {
    Item(Item),
    Entry(Entry),
}

/// The item or the entry that an element is.
fn sorted(alloc: Global, element: Element) -> Result<ItemOrEntry, AllocError>
    ensures { IfOk result (λ s. s ≡ spec.sorted element) }
{
    Ok(match element {
        Element::Plain(value) => ItemOrEntry::Item(Item::Plain(Boxed::new(alloc, value)?)),
        Element::Spread(place, value) => {
            ItemOrEntry::Item(Item::Spread(place, Boxed::new(alloc, value)?))
        }
        Element::Keyed(key, value) => {
            ItemOrEntry::Entry(Entry::Keyed(key, Boxed::new(alloc, value)?))
        }
        Element::Computed(place, key, value) => ItemOrEntry::Entry(Entry::Computed(
            place,
            Boxed::new(alloc, key)?,
            Boxed::new(alloc, value)?,
        )),
        Element::SpreadMap(place, value) => {
            ItemOrEntry::Entry(Entry::Spread(place, Boxed::new(alloc, value)?))
        }
    })
}

/// A key of one token.
pub fn key_of(place: Place, kind: TokenKind) -> Option<Key>
    ensures { result ≡ spec.key_of place kind }
{
    match kind {
        TokenKind::Word(Word::Refused(_), _) => None,
        TokenKind::Word(_, name) => Some(Key::Label(Label::Name(Ident { place, name }))),
        TokenKind::Text(Piece::Whole, name) => {
            Some(Key::Label(Label::Text(Ident { place, name })))
        }
        TokenKind::Int(value) => Some(Key::Int(place, value)),
        TokenKind::Long(value) => Some(Key::Long(place, value)),
        _ => None,
    }
}

/// Whether it is a `:`.
pub fn is_colon(next: TokenKind) -> bool
    ensures { MatchBool result (next ≡ kind.Symbol symbol.Colon) (next ≢ kind.Symbol symbol.Colon) }
{
    matches!(next, TokenKind::Symbol(Symbol::Colon))
}

fn is_ended(next: TokenKind) -> bool
    ensures { result ≡ ends_element next }
{
    matches!(
        next,
        TokenKind::Symbol(Symbol::Comma | Symbol::RightParen | Symbol::RightBracket)
    )
}

/// Refuses where no element ends.
fn expect_end_of_element(tokens: &mut Tokens<'_>) -> Result<(), ReadError>
    ensures same { tokens.new.rest.now ≡ tokens.old.rest.now }
    ensures ended { MatchResult result (λ _. ends_element (kind_of tokens.old.rest.now) ≡ true) (λ e. (e ≡ Refused) × (ends_element (kind_of tokens.old.rest.now) ≡ false)) }
{
    if is_ended(tokens.kind()) {
        Ok(())
    } else {
        Err(tokens.refuse())
    }
}

impl<F: Fn(Global, usize, Inner, &mut Tokens<'_>) -> Result<Expr, ReadError>> Exprs<F> {
    // ---- elements, each before what ends it

    fn element(&self, tokens: &mut Tokens<'_>) -> Result<Element, ReadError>
        requires nests { Nests self.now.below (F.pre self.now.nested) (F.post self.now.nested) }
        requires shorter { length tokens.old.rest.now < self.now.below }
        ensures { Exactly (Before ends_element (IsElement self.now.all)) result tokens.old.rest.now tokens.new.rest.now }
    {
        if tokens.sees(Symbol::Star) {
            return self.spread(tokens);
        }
        if tokens.sees(Symbol::SpreadColon) {
            return self.spread_map(tokens);
        }
        if is_colon(tokens.kind_behind()) {
            if let Some(key) = key_of(tokens.place(), tokens.kind()) {
                return self.keyed(key, tokens);
            }
        }
        self.plain_or_keyed(tokens)
    }

    fn spread(&self, tokens: &mut Tokens<'_>) -> Result<Element, ReadError>
        requires nests { Nests self.now.below (F.pre self.now.nested) (F.post self.now.nested) }
        requires shorter { length tokens.old.rest.now < self.now.below }
        requires next { kind_of tokens.old.rest.now ≡ kind.Symbol symbol.Star }
        ensures { Exactly (Before ends_element (IsElement self.now.all)) result tokens.old.rest.now tokens.new.rest.now }
    {
        let place = tokens.place();
        tokens.advance();
        let value = self.inner_unary(tokens)?;
        expect_end_of_element(tokens)?;
        Ok(Element::Spread(place, value))
    }

    fn spread_map(&self, tokens: &mut Tokens<'_>) -> Result<Element, ReadError>
        requires nests { Nests self.now.below (F.pre self.now.nested) (F.post self.now.nested) }
        requires shorter { length tokens.old.rest.now < self.now.below }
        requires next { kind_of tokens.old.rest.now ≡ kind.Symbol symbol.SpreadColon }
        ensures { Exactly (Before ends_element (IsElement self.now.all)) result tokens.old.rest.now tokens.new.rest.now }
    {
        let place = tokens.place();
        tokens.advance();
        let value = self.inner_unary(tokens)?;
        expect_end_of_element(tokens)?;
        Ok(Element::SpreadMap(place, value))
    }

    /// An element with a key of one token.
    fn keyed(&self, key: Key, tokens: &mut Tokens<'_>) -> Result<Element, ReadError>
        requires nests { Nests self.now.below (F.pre self.now.nested) (F.post self.now.nested) }
        requires shorter { length tokens.old.rest.now < self.now.below }
        requires key { spec.key_of (place_of tokens.old.rest.now) (kind_of tokens.old.rest.now) ≡ Some key }
        requires colon { kind_of (drop 1 tokens.old.rest.now) ≡ kind.Symbol symbol.Colon }
        ensures { Exactly (Before ends_element (IsElement self.now.all)) result tokens.old.rest.now tokens.new.rest.now }
    {
        tokens.advance();
        tokens.advance();
        let value = self.inner_expr(tokens)?;
        expect_end_of_element(tokens)?;
        Ok(Element::Keyed(key, value))
    }

    /// An expression, or one with a `:` behind it: then it is a key, if it is a string with parts or in
    /// parentheses.
    fn plain_or_keyed(&self, tokens: &mut Tokens<'_>) -> Result<Element, ReadError>
        requires nests { Nests self.now.below (F.pre self.now.nested) (F.post self.now.nested) }
        requires shorter { length tokens.old.rest.now < self.now.below }
        requires no_spread { kind_of tokens.old.rest.now ≢ kind.Symbol symbol.Star }
        requires no_spread_map { kind_of tokens.old.rest.now ≢ kind.Symbol symbol.SpreadColon }
        requires no_key { (kind_of (drop 1 tokens.old.rest.now) ≢ kind.Symbol symbol.Colon) ⊎ (spec.key_of (place_of tokens.old.rest.now) (kind_of tokens.old.rest.now) ≡ None) }
        ensures { Exactly (Before ends_element (IsElement self.now.all)) result tokens.old.rest.now tokens.new.rest.now }
    {
        let first = self.inner_expr(tokens)?;
        if !tokens.sees(Symbol::Colon) {
            expect_end_of_element(tokens)?;
            return Ok(Element::Plain(first));
        }
        match first {
            Expr::GString(place, text) => {
                tokens.advance();
                let value = self.inner_expr(tokens)?;
                expect_end_of_element(tokens)?;
                Ok(Element::Keyed(Key::Label(Label::GString(place, text)), value))
            }
            Expr::Paren(place, key) => {
                tokens.advance();
                let value = self.inner_expr(tokens)?;
                expect_end_of_element(tokens)?;
                Ok(Element::Computed(place, key.into_inner(), value))
            }
            _ => Err(tokens.refuse()),
        }
    }

    fn arg(&self, tokens: &mut Tokens<'_>) -> Result<Arg, ReadError>
        requires nests { Nests self.now.below (F.pre self.now.nested) (F.post self.now.nested) }
        requires shorter { length tokens.old.rest.now < self.now.below }
        ensures { Exactly (Before ends_element (IsArg self.now.all)) result tokens.old.rest.now tokens.new.rest.now }
    {
        match self.element(tokens)? {
            Element::Plain(value) => Ok(Arg::Plain(Boxed::new(self.alloc, value)?)),
            Element::Keyed(key, value) => Ok(Arg::Keyed(key, Boxed::new(self.alloc, value)?)),
            Element::Spread(place, value) => {
                Ok(Arg::Spread(place, Boxed::new(self.alloc, value)?))
            }
            Element::SpreadMap(place, value) => {
                Ok(Arg::SpreadMap(place, Boxed::new(self.alloc, value)?))
            }
            Element::Computed(_, _, _) => Err(tokens.refuse()),
        }
    }

    fn item(&self, tokens: &mut Tokens<'_>) -> Result<Item, ReadError>
        requires nests { Nests self.now.below (F.pre self.now.nested) (F.post self.now.nested) }
        requires shorter { length tokens.old.rest.now < self.now.below }
        ensures { Exactly (Before ends_element (IsItem self.now.all)) result tokens.old.rest.now tokens.new.rest.now }
    {
        match sorted(self.alloc, self.element(tokens)?)? {
            ItemOrEntry::Item(item) => Ok(item),
            ItemOrEntry::Entry(_) => Err(tokens.refuse()),
        }
    }

    fn entry(&self, tokens: &mut Tokens<'_>) -> Result<Entry, ReadError>
        requires nests { Nests self.now.below (F.pre self.now.nested) (F.post self.now.nested) }
        requires shorter { length tokens.old.rest.now < self.now.below }
        ensures { Exactly (Before ends_element (IsEntry self.now.all)) result tokens.old.rest.now tokens.new.rest.now }
    {
        match sorted(self.alloc, self.element(tokens)?)? {
            ItemOrEntry::Entry(entry) => Ok(entry),
            ItemOrEntry::Item(_) => Err(tokens.refuse()),
        }
    }

    // ---- lists, behind the bracket that opens them and with the one that closes them

    pub fn arguments(&self, tokens: &mut Tokens<'_>) -> Result<Items<Arg>, ReadError>
        requires nests { Nests self.now.below (F.pre self.now.nested) (F.post self.now.nested) }
        requires shorter { length tokens.old.rest.now < self.now.below }
        ensures { Reads (AreArguments self.now.all) result tokens.old.rest.now tokens.new.rest.now }
    {
        let mut args = Items::new(self.alloc);
        if tokens.eat(Symbol::RightParen) {
            return Ok(args);
        }
        loop {
            args.push(self.arg(tokens)?)?;
            if tokens.eat(Symbol::RightParen) {
                return Ok(args);
            }
            tokens.expect(Symbol::Comma)?;
        }
    }

    pub fn indexes(&self, tokens: &mut Tokens<'_>) -> Result<Items<Expr>, ReadError>
        requires nests { Nests self.now.below (F.pre self.now.nested) (F.post self.now.nested) }
        requires shorter { length tokens.old.rest.now < self.now.below }
        ensures { Reads (AreIndexes self.now.all) result tokens.old.rest.now tokens.new.rest.now }
    {
        let mut indexes = Items::new(self.alloc);
        loop {
            indexes.push(self.inner_expr(tokens)?)?;
            if tokens.eat(Symbol::RightBracket) {
                return Ok(indexes);
            }
            tokens.expect(Symbol::Comma)?;
        }
    }

    /// What stands behind a `[` at this place that begins a primary.
    pub fn list_or_map(&self, place: Place, tokens: &mut Tokens<'_>) -> Result<Expr, ReadError>
        requires nests { Nests self.now.below (F.pre self.now.nested) (F.post self.now.nested) }
        requires shorter { length tokens.old.rest.now < self.now.below }
        ensures { Reads (IsListOrMap self.now.all place) result tokens.old.rest.now tokens.new.rest.now }
    {
        if tokens.eat(Symbol::RightBracket) {
            return Ok(Expr::List(place, Items::new(self.alloc)));
        }
        if tokens.eat(Symbol::Colon) {
            tokens.expect(Symbol::RightBracket)?;
            return Ok(Expr::Map(place, Items::new(self.alloc)));
        }
        match sorted(self.alloc, self.element(tokens)?)? {
            ItemOrEntry::Item(first) => Ok(Expr::List(place, self.items(first, tokens)?)),
            ItemOrEntry::Entry(first) => Ok(Expr::Map(place, self.entries(first, tokens)?)),
        }
    }

    /// The items of a list, of which the first is read.
    fn items(&self, first: Item, tokens: &mut Tokens<'_>) -> Result<Items<Item>, ReadError>
        requires nests { Nests self.now.below (F.pre self.now.nested) (F.post self.now.nested) }
        requires shorter { length tokens.old.rest.now < self.now.below }
        ensures { Reads (FollowsItem self.now.all (first ∷ [])) result tokens.old.rest.now tokens.new.rest.now }
    {
        let mut items = Items::new(self.alloc);
        items.push(first)?;
        loop {
            if tokens.eat(Symbol::RightBracket) {
                return Ok(items);
            }
            tokens.expect(Symbol::Comma)?;
            if tokens.eat(Symbol::RightBracket) {
                return Ok(items);
            }
            items.push(self.item(tokens)?)?;
        }
    }

    /// The entries of a map, of which the first is read.
    fn entries(&self, first: Entry, tokens: &mut Tokens<'_>) -> Result<Items<Entry>, ReadError>
        requires nests { Nests self.now.below (F.pre self.now.nested) (F.post self.now.nested) }
        requires shorter { length tokens.old.rest.now < self.now.below }
        ensures { Reads (FollowsEntry self.now.all (first ∷ [])) result tokens.old.rest.now tokens.new.rest.now }
    {
        let mut entries = Items::new(self.alloc);
        entries.push(first)?;
        loop {
            if tokens.eat(Symbol::RightBracket) {
                return Ok(entries);
            }
            tokens.expect(Symbol::Comma)?;
            if tokens.eat(Symbol::RightBracket) {
                return Ok(entries);
            }
            entries.push(self.entry(tokens)?)?;
        }
    }
}
