//! The operands of a body, and what waits below it.

ghost use Rattle.std.specs.Prelude.{◌≡◌, [], ◌∷◌, MatchOption, OnErr, OnOk, drop, length, reverse, take, ◌-◌};

use std::alloc::{AllocError, Global};
use std::marker::Model;

/// A stack that contracts see as a list, the top first.
#[derive(Debug, Drop)]
pub struct Stack<T> {
    items: Vec<T>,
}

impl<T> Model for Stack<T> {
    ghost use Rattle.std.specs.Prelude.{List, reverse};

    ghost Value = { List T };

    ghost view = { λ s. reverse s.items.items };
}

impl<T> Stack<T> {
    pub fn new(alloc: Global) -> Stack<T>
        ensures { result ≡ [] }
    {
        Stack {
            items: Vec::new(alloc),
        }
    }

    /// The top, which leaves the stack.
    pub fn pop(&mut self) -> Option<T>
        ensures { MatchOption result ((self.old ≡ []) × (self.new ≡ [])) (λ top. self.old ≡ top ∷ self.new) }
    {
        self.items.pop()
    }
}

impl<T: Drop> Stack<T> {
    pub fn len(&self) -> usize
        ensures { result ≡ length self.now }
    {
        self.items.len()
    }

    /// Those up to `count` from the top, the topmost last.
    pub fn last(&self, count: usize) -> &[T]
        ensures { result.now ≡ reverse (take count self.now) }
    {
        let below = self.items.len().saturating_sub(count);
        &self.items[below..]
    }

    /// Gives up all.
    pub fn clear(&mut self)
        ensures { self.new ≡ [] }
    {
        self.items.clear();
    }

    /// Keeps the lowest `kept`.
    pub fn cut(&mut self, kept: usize)
        ensures { self.new ≡ drop (length self.old - kept) self.old }
    {
        self.items.truncate(kept);
    }

    /// Another top. The stack stays as it was where memory is wanting.
    pub fn push(&mut self, top: T) -> Result<(), AllocError>
        ensures ok { OnOk result (self.new ≡ top ∷ self.old) }
        ensures err { OnErr result (self.new ≡ self.old) }
    {
        self.items.push(top)?;
        Ok(())
    }
}
