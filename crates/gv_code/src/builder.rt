//! Pieces of code, put together.

ghost use Rattle.std.specs.Prelude.{◌≡◌, ℕ, [], ◌∷◌, ◌++◌, ◌<◌, ◌≤◌, ◌+◌, ◌^◌, length, map, IfOk};
ghost use Rattle.gv_code.specs.Pieces.{Bounded, bare, decide, directed, directed_items, guarded, instruction_of, joined, shifted, ways_of, written};

use crate::code::{Body, Handler, Instruction, Op};
use crate::piece::{Item, Ways};
use gv_base::{ClassId, OutOfMemory};
use gv_core::Exit;
use sqlite_items::Items;
use std::alloc::Global;
use std::marker::Model;

/// A stretch of code with its own handlers.
#[derive(Debug, Drop)]
pub struct PieceBuilder {
    items: Vec<Item>,
    handlers: Vec<Handler>,
}

impl Model for PieceBuilder {
    ghost use Rattle.std.specs.Prelude.{length};
    ghost use Rattle.gv_code.specs.Pieces.{Bounded, Piece};

    ghost Value = { Piece };

    ghost view = { λ b. record { items = b.items.items; handlers = b.handlers.items } };

    ghost invariant = { λ b. Bounded (length b.items.items) b.handlers.items };
}

// The same handler behind n more instructions.
fn shift(h: Handler, n: usize) -> Handler
    requires from { h.from + n < 2 ^ 64 }
    requires to { h.to + n < 2 ^ 64 }
    requires target { h.target + n < 2 ^ 64 }
    ensures { result ≡ shifted n h }
{
    Handler {
        from: h.from + n,
        to: h.to + n,
        class: h.class,
        target: h.target + n,
        kept: h.kept,
    }
}

// Handlers, and more behind n instructions, of which there are `end`.
fn shift_all(
    handlers: Vec<Handler>,
    more: &[Handler],
    n: usize,
    end: usize,
) -> Result<Vec<Handler>, OutOfMemory>
    requires bounded { Bounded end more.now }
    requires room { end + n < 2 ^ 63 }
    ensures { IfOk result (λ all. all.items ≡ handlers.items ++ map (shifted n) more.now) }
{
    let mut handlers = handlers;
    for h in more {
        handlers.push(shift(*h, n))?;
    }
    Ok(handlers)
}

// What an enclosing form makes of a way out with so many instructions behind it.
fn decide(item: Item, after: usize, ways: Ways) -> Item
    requires { after + 3 < 2 ^ 64 }
    ensures { result ≡ decide (ways_of ways) after item }
{
    match (item, ways) {
        (Item::Out(shape, Exit::Breaks), Ways::Loop(kept)) => Item::Plain(Instruction {
            shape,
            op: Op::Leave(after + 3, kept),
        }),
        (Item::Out(shape, Exit::Continues), Ways::Loop(kept)) => Item::Plain(Instruction {
            shape,
            op: Op::Leave(after + 1, kept),
        }),
        (item, _) => item,
    }
}

fn decide_all(alloc: Global, items: Vec<Item>, ways: Ways) -> Result<Vec<Item>, OutOfMemory>
    ensures { IfOk result (λ all. all.items ≡ directed_items (ways_of ways) items.items) }
{
    let mut after = items.len();
    let mut decided = Vec::new(alloc);
    for item in items {
        after -= 1;
        decided.push(decide(item, after, ways))?;
    }
    Ok(decided)
}

fn instruction(item: Item) -> Instruction
    ensures { result ≡ instruction_of item }
{
    match item {
        Item::Plain(instruction) => instruction,
        Item::Out(shape, _) => Instruction {
            shape,
            op: Op::Finish,
        },
    }
}

fn instructions(alloc: Global, items: Vec<Item>) -> Result<Items<Instruction>, OutOfMemory>
    ensures { IfOk result (λ steps. steps ≡ map instruction_of items.items) }
{
    let mut steps = Items::new(alloc);
    for item in items {
        steps.push(instruction(item))?;
    }
    Ok(steps)
}

impl PieceBuilder {
    /// Instructions without handlers.
    pub fn bare(alloc: Global, items: Vec<Item>) -> PieceBuilder
        ensures { result ≡ bare items.items }
    {
        PieceBuilder {
            items,
            handlers: Vec::new(alloc),
        }
    }

    /// How many instructions it has.
    pub fn len(&self) -> usize
        ensures { result ≡ length self.now.items }
    {
        self.items.len()
    }

    /// Two, in order.
    pub fn join(self, more: PieceBuilder) -> Result<PieceBuilder, OutOfMemory>
        ensures { IfOk result (λ both. both ≡ joined self more) }
    {
        let PieceBuilder {
            mut items,
            handlers,
        } = self;
        let PieceBuilder {
            items: mut more_items,
            handlers: more_handlers,
        } = more;
        let n = items.len();
        let end = more_items.len();
        items.append(&mut more_items)?;
        let handlers = shift_all(handlers, more_handlers.as_slice(), n, end)?;
        Ok(PieceBuilder { items, handlers })
    }

    /// One more handler, for all of it, which leads `far` behind its end. A piece without instructions gets none.
    pub fn guard(self, class: ClassId, far: usize, kept: usize) -> Result<PieceBuilder, OutOfMemory>
        requires { far ≤ 2 }
        ensures { IfOk result (λ piece. piece ≡ guarded class far kept self) }
    {
        let PieceBuilder {
            items,
            mut handlers,
        } = self;
        let end = items.len();
        if end == 0 {
            return Ok(PieceBuilder { items, handlers });
        }
        handlers.push(Handler {
            from: 0,
            to: end,
            class,
            target: end + far,
            kept,
        })?;
        Ok(PieceBuilder { items, handlers })
    }

    /// Decides the ways out that an enclosing form takes.
    pub fn direct(self, alloc: Global, ways: Ways) -> Result<PieceBuilder, OutOfMemory>
        ensures { IfOk result (λ piece. piece ≡ directed (ways_of ways) self) }
    {
        let PieceBuilder { items, handlers } = self;
        let items = decide_all(alloc, items, ways)?;
        Ok(PieceBuilder { items, handlers })
    }

    /// The body that it is, with so many captured variables and parameters. A way out that no form has decided ends the body.
    pub fn finish(
        self,
        alloc: Global,
        captured: usize,
        parameters: usize,
    ) -> Result<Body, OutOfMemory>
        ensures { IfOk result (λ body. body ≡ written captured parameters self) }
    {
        let PieceBuilder { items, handlers } = self;
        Ok(Body {
            parameters,
            captured,
            handlers: Items::from_vec(handlers),
            steps: instructions(alloc, items)?,
        })
    }
}
