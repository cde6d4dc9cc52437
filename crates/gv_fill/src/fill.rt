//! The walk over an expression.

ghost use Rattle.std.specs.Prelude.{◌≡◌, length, reverse, map, IfOk};
ghost use Rattle.gv_grammar.specs.Closures.{Within, all_found, filled, unread_places, filled_arg, filled_entry, filled_item, filled_key, filled_label, filled_gstring, filled_part, filled_closure, arg_places, entry_places, item_places, key_places, label_places, gstring_places, part_places, closure_places};
ghost use Rattle.gv_fill.specs.Filled.{Bodies, Fills};

use gv_cursor::ReadError;
use gv_lex::Token;
use gv_tree::{Arg, Closure, Entry, Expr, GString, Item, Key, Label, Part};
use sqlite_items::{Boxed, Items};
use std::alloc::{AllocError, Global};

/// Reads the unread closures of expressions.
#[derive(Clone, Copy)]
pub struct Filler<'a, F> {
    pub alloc: Global,
    /// The list in which the closures' tokens stand.
    pub tokens: &'a [Token],
    /// `body` reads fewer tokens than these.
    pub below: usize,
    /// Reads the tokens between two places of the list as those of a closure; the last argument is
    /// that of `fill`.
    pub body: F,
}

/// The same items, the last one first.
fn turned<T: Drop>(alloc: Global, items: Items<T>) -> Result<Items<T>, AllocError>
    ensures { IfOk result (λ turned. turned ≡ reverse items) }
{
    let mut left = items;
    let mut turned = Items::new(alloc);
    while let Some(item) = left.pop() {
        turned.push(item)?;
    }
    Ok(turned)
}

impl<'a, F: Fn(Global, &[Token], usize, usize, &mut usize) -> Result<Closure, ReadError>> Filler<
    'a,
    F,
> {
    /// The expression with each closure read. Refused where the tokens of one have no reading;
    /// `furthest` is then at most the least number of tokens that were left where one was refused.
    #[cycle(fill)]
    pub fn fill(&self, x: Expr, furthest: &mut usize) -> Result<Expr, ReadError>
        requires bodies { Bodies self.now.below (F.pre self.now.body) (F.post self.now.body) }
        requires within { Within (length self.now.tokens.now) self.now.below (unread_places x) }
        ensures { Fills self.now.tokens.now (unread_places x) (λ read. filled read x) result }
    {
        match x {
            Expr::Atom(place, atom) => Ok(Expr::Atom(place, atom)),
            Expr::GString(place, text) => Ok(Expr::GString(place, self.gstring(text, furthest)?)),
            Expr::Paren(place, a) => Ok(Expr::Paren(place, self.boxed(a, furthest)?)),
            Expr::List(place, items) => Ok(Expr::List(place, self.items(items, furthest)?)),
            Expr::Map(place, entries) => Ok(Expr::Map(place, self.entries(entries, furthest)?)),
            Expr::Closure(place, closure) => Ok(Expr::Closure(
                place,
                self.closure(closure, furthest)?,
            )),
            Expr::New(place, class, args) => Ok(Expr::New(
                place,
                class,
                self.args(args, furthest)?,
            )),
            Expr::Unary(place, op, a) => Ok(Expr::Unary(place, op, self.boxed(a, furthest)?)),
            Expr::Binary(place, op, a, b) => {
                Ok(Expr::Binary(
                    place,
                    op,
                    self.boxed(a, furthest)?,
                    self.boxed(b, furthest)?,
                ))
            }
            Expr::Typed(place, op, a, written) => {
                Ok(Expr::Typed(place, op, self.boxed(a, furthest)?, written))
            }
            Expr::Choice(place, a, b, c) => match b {
                None => Ok(Expr::Choice(
                    place,
                    self.boxed(a, furthest)?,
                    None,
                    self.boxed(c, furthest)?,
                )),
                Some(b) => Ok(Expr::Choice(
                    place,
                    self.boxed(a, furthest)?,
                    Some(self.boxed(b, furthest)?),
                    self.boxed(c, furthest)?,
                )),
            },
            Expr::Assign(place, op, a, b) => {
                Ok(Expr::Assign(
                    place,
                    op,
                    self.boxed(a, furthest)?,
                    self.boxed(b, furthest)?,
                ))
            }
            Expr::Member(place, op, a, label) => {
                Ok(Expr::Member(
                    place,
                    op,
                    self.boxed(a, furthest)?,
                    self.label(label, furthest)?,
                ))
            }
            Expr::Field(place, a, name) => Ok(Expr::Field(place, self.boxed(a, furthest)?, name)),
            Expr::Index(place, a, indexes) => {
                Ok(Expr::Index(
                    place,
                    self.boxed(a, furthest)?,
                    self.exprs(indexes, furthest)?,
                ))
            }
            Expr::Call(place, a, args) => {
                Ok(Expr::Call(place, self.boxed(a, furthest)?, self.args(args, furthest)?))
            }
        }
    }

    #[cycle(fill)]
    fn boxed(&self, x: Boxed<Expr>, furthest: &mut usize) -> Result<Boxed<Expr>, ReadError>
        requires bodies { Bodies self.now.below (F.pre self.now.body) (F.post self.now.body) }
        requires within { Within (length self.now.tokens.now) self.now.below (unread_places x) }
        ensures { Fills self.now.tokens.now (unread_places x) (λ read. filled read x) result }
    {
        Ok(Boxed::new(self.alloc, self.fill(x.into_inner(), furthest)?)?)
    }

    fn closure(&self, x: Closure, furthest: &mut usize) -> Result<Closure, ReadError>
        requires bodies { Bodies self.now.below (F.pre self.now.body) (F.post self.now.body) }
        requires within { Within (length self.now.tokens.now) self.now.below (closure_places x) }
        ensures { Fills self.now.tokens.now (closure_places x) (λ read. filled_closure read x) result }
    {
        match x {
            Closure::Unread(from, to) => (self.body)(self.alloc, self.tokens, from, to, furthest),
            Closure::Read(_, _) => Ok(Closure::Read(None, Items::new(self.alloc))),
        }
    }

    #[cycle(fill)]
    fn gstring(&self, x: GString, furthest: &mut usize) -> Result<GString, ReadError>
        requires bodies { Bodies self.now.below (F.pre self.now.body) (F.post self.now.body) }
        requires within { Within (length self.now.tokens.now) self.now.below (gstring_places x) }
        ensures { Fills self.now.tokens.now (gstring_places x) (λ read. filled_gstring read x) result }
    {
        let GString { head, parts } = x;
        Ok(GString {
            head,
            parts: self.parts(parts, furthest)?,
        })
    }

    #[cycle(fill)]
    fn part(&self, x: Part, furthest: &mut usize) -> Result<Part, ReadError>
        requires bodies { Bodies self.now.below (F.pre self.now.body) (F.post self.now.body) }
        requires within { Within (length self.now.tokens.now) self.now.below (part_places x) }
        ensures { Fills self.now.tokens.now (part_places x) (λ read. filled_part read x) result }
    {
        let Part {
            is_lazy,
            value,
            behind,
        } = x;
        Ok(Part {
            is_lazy,
            value: self.boxed(value, furthest)?,
            behind,
        })
    }

    #[cycle(fill)]
    fn item(&self, x: Item, furthest: &mut usize) -> Result<Item, ReadError>
        requires bodies { Bodies self.now.below (F.pre self.now.body) (F.post self.now.body) }
        requires within { Within (length self.now.tokens.now) self.now.below (item_places x) }
        ensures { Fills self.now.tokens.now (item_places x) (λ read. filled_item read x) result }
    {
        match x {
            Item::Plain(a) => Ok(Item::Plain(self.boxed(a, furthest)?)),
            Item::Spread(place, a) => Ok(Item::Spread(place, self.boxed(a, furthest)?)),
        }
    }

    #[cycle(fill)]
    fn entry(&self, x: Entry, furthest: &mut usize) -> Result<Entry, ReadError>
        requires bodies { Bodies self.now.below (F.pre self.now.body) (F.post self.now.body) }
        requires within { Within (length self.now.tokens.now) self.now.below (entry_places x) }
        ensures { Fills self.now.tokens.now (entry_places x) (λ read. filled_entry read x) result }
    {
        match x {
            Entry::Keyed(key, a) => Ok(Entry::Keyed(
                self.key(key, furthest)?,
                self.boxed(a, furthest)?,
            )),
            Entry::Computed(place, a, b) => {
                Ok(Entry::Computed(place, self.boxed(a, furthest)?, self.boxed(b, furthest)?))
            }
            Entry::Spread(place, a) => Ok(Entry::Spread(place, self.boxed(a, furthest)?)),
        }
    }

    #[cycle(fill)]
    fn arg(&self, x: Arg, furthest: &mut usize) -> Result<Arg, ReadError>
        requires bodies { Bodies self.now.below (F.pre self.now.body) (F.post self.now.body) }
        requires within { Within (length self.now.tokens.now) self.now.below (arg_places x) }
        ensures { Fills self.now.tokens.now (arg_places x) (λ read. filled_arg read x) result }
    {
        match x {
            Arg::Plain(a) => Ok(Arg::Plain(self.boxed(a, furthest)?)),
            Arg::Keyed(key, a) => Ok(Arg::Keyed(
                self.key(key, furthest)?,
                self.boxed(a, furthest)?,
            )),
            Arg::Spread(place, a) => Ok(Arg::Spread(place, self.boxed(a, furthest)?)),
            Arg::SpreadMap(place, a) => Ok(Arg::SpreadMap(place, self.boxed(a, furthest)?)),
        }
    }

    #[cycle(fill)]
    fn key(&self, x: Key, furthest: &mut usize) -> Result<Key, ReadError>
        requires bodies { Bodies self.now.below (F.pre self.now.body) (F.post self.now.body) }
        requires within { Within (length self.now.tokens.now) self.now.below (key_places x) }
        ensures { Fills self.now.tokens.now (key_places x) (λ read. filled_key read x) result }
    {
        match x {
            Key::Label(label) => Ok(Key::Label(self.label(label, furthest)?)),
            Key::Int(place, value) => Ok(Key::Int(place, value)),
            Key::Long(place, value) => Ok(Key::Long(place, value)),
        }
    }

    #[cycle(fill)]
    fn label(&self, x: Label, furthest: &mut usize) -> Result<Label, ReadError>
        requires bodies { Bodies self.now.below (F.pre self.now.body) (F.post self.now.body) }
        requires within { Within (length self.now.tokens.now) self.now.below (label_places x) }
        ensures { Fills self.now.tokens.now (label_places x) (λ read. filled_label read x) result }
    {
        match x {
            Label::Name(name) => Ok(Label::Name(name)),
            Label::Text(text) => Ok(Label::Text(text)),
            Label::GString(place, text) => Ok(Label::GString(place, self.gstring(text, furthest)?)),
        }
    }

    #[cycle(fill)]
    fn exprs(&self, x: Items<Expr>, furthest: &mut usize) -> Result<Items<Expr>, ReadError>
        requires bodies { Bodies self.now.below (F.pre self.now.body) (F.post self.now.body) }
        requires within { Within (length self.now.tokens.now) self.now.below (all_found (map unread_places x)) }
        ensures { Fills self.now.tokens.now (all_found (map unread_places x)) (λ read. map (filled read) x) result }
    {
        let mut left = x;
        let mut last_first = Items::new(self.alloc);
        while let Some(one) = left.pop() {
            last_first.push(self.fill(one, furthest)?)?;
        }
        Ok(turned(self.alloc, last_first)?)
    }

    #[cycle(fill)]
    fn items(&self, x: Items<Item>, furthest: &mut usize) -> Result<Items<Item>, ReadError>
        requires bodies { Bodies self.now.below (F.pre self.now.body) (F.post self.now.body) }
        requires within { Within (length self.now.tokens.now) self.now.below (all_found (map item_places x)) }
        ensures { Fills self.now.tokens.now (all_found (map item_places x)) (λ read. map (filled_item read) x) result }
    {
        let mut left = x;
        let mut last_first = Items::new(self.alloc);
        while let Some(one) = left.pop() {
            last_first.push(self.item(one, furthest)?)?;
        }
        Ok(turned(self.alloc, last_first)?)
    }

    #[cycle(fill)]
    fn entries(&self, x: Items<Entry>, furthest: &mut usize) -> Result<Items<Entry>, ReadError>
        requires bodies { Bodies self.now.below (F.pre self.now.body) (F.post self.now.body) }
        requires within { Within (length self.now.tokens.now) self.now.below (all_found (map entry_places x)) }
        ensures { Fills self.now.tokens.now (all_found (map entry_places x)) (λ read. map (filled_entry read) x) result }
    {
        let mut left = x;
        let mut last_first = Items::new(self.alloc);
        while let Some(one) = left.pop() {
            last_first.push(self.entry(one, furthest)?)?;
        }
        Ok(turned(self.alloc, last_first)?)
    }

    #[cycle(fill)]
    fn args(&self, x: Items<Arg>, furthest: &mut usize) -> Result<Items<Arg>, ReadError>
        requires bodies { Bodies self.now.below (F.pre self.now.body) (F.post self.now.body) }
        requires within { Within (length self.now.tokens.now) self.now.below (all_found (map arg_places x)) }
        ensures { Fills self.now.tokens.now (all_found (map arg_places x)) (λ read. map (filled_arg read) x) result }
    {
        let mut left = x;
        let mut last_first = Items::new(self.alloc);
        while let Some(one) = left.pop() {
            last_first.push(self.arg(one, furthest)?)?;
        }
        Ok(turned(self.alloc, last_first)?)
    }

    #[cycle(fill)]
    fn parts(&self, x: Items<Part>, furthest: &mut usize) -> Result<Items<Part>, ReadError>
        requires bodies { Bodies self.now.below (F.pre self.now.body) (F.post self.now.body) }
        requires within { Within (length self.now.tokens.now) self.now.below (all_found (map part_places x)) }
        ensures { Fills self.now.tokens.now (all_found (map part_places x)) (λ read. map (filled_part read) x) result }
    {
        let mut left = x;
        let mut last_first = Items::new(self.alloc);
        while let Some(one) = left.pop() {
            last_first.push(self.part(one, furthest)?)?;
        }
        Ok(turned(self.alloc, last_first)?)
    }
}
