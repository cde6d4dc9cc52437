//! Core expressions, put together.

ghost use Rattle.std.specs.Prelude.{◌≡◌, Some, option_map, IfOk};
ghost use Rattle.gv_core.specs.declared.expr.Expr.TheVariants as core;
ghost use Rattle.gv_lower.specs.Core.{called, operated, compared_by, compared, print_of};

use crate::known::{Comparison, Known};
use gv_base::{Name, OutOfMemory};
use gv_core::Expr;
use sqlite_items::{Boxed, Items};
use std::alloc::Global;

/// What a tree is made a core tree with.
#[derive(Clone, Copy)]
pub(crate) struct Lowering {
    pub(crate) alloc: Global,
    pub(crate) known: Known,
    /// As deep as expressions may stand in one another.
    pub(crate) levels: u32,
}

impl Lowering {
    // A call on one value with another.
    fn called(&self, method: Name, first: Expr, second: Expr) -> Result<Expr, OutOfMemory>
        ensures { IfOk result (λ call. call ≡ called method first second) }
    {
        let mut all = Items::new(self.alloc);
        all.push(first)?;
        all.push(second)?;
        Ok(Expr::Call(method, all))
    }

    /// An operator's call, where it has a method and its operands are built.
    pub(crate) fn operated(
        &self,
        method: Option<Name>,
        first: Option<Expr>,
        second: Option<Expr>,
    ) -> Result<Option<Expr>, OutOfMemory>
        ensures { IfOk result (λ call. call ≡ operated method first second) }
    {
        let (Some(method), Some(first), Some(second)) = (method, first, second) else {
            return Ok(None);
        };
        let call = self.called(method, first, second)?;
        Ok(Some(call))
    }

    fn compared_by(
        &self,
        comparison: Comparison,
        first: Expr,
        second: Expr,
    ) -> Result<Expr, OutOfMemory>
        ensures { IfOk result (λ test. test ≡ compared_by self.now.known comparison first second) }
    {
        match comparison {
            Comparison::ByOrder(order) => {
                let call = self.called(self.known.compare_to, first, second)?;
                Ok(Expr::Ordered(order, Boxed::new(self.alloc, call)?))
            }
            Comparison::Equal => self.equal(first, second),
            Comparison::NotEqual => {
                let equal = self.equal(first, second)?;
                Ok(Expr::Not(Boxed::new(self.alloc, equal)?))
            }
        }
    }

    fn equal(&self, first: Expr, second: Expr) -> Result<Expr, OutOfMemory>
        ensures { IfOk result (λ test. test ≡ core.Equal first second) }
    {
        let first = Boxed::new(self.alloc, first)?;
        let second = Boxed::new(self.alloc, second)?;
        Ok(Expr::Equal(first, second))
    }

    /// A comparison, where there is one and its operands are built.
    pub(crate) fn compared(
        &self,
        comparison: Option<Comparison>,
        first: Option<Expr>,
        second: Option<Expr>,
    ) -> Result<Option<Expr>, OutOfMemory>
        ensures { IfOk result (λ test. test ≡ compared self.now.known comparison first second) }
    {
        let (Some(comparison), Some(first), Some(second)) = (comparison, first, second) else {
            return Ok(None);
        };
        let test = self.compared_by(comparison, first, second)?;
        Ok(Some(test))
    }

    /// A call that prints a value.
    pub(crate) fn print_of(&self, value: Expr) -> Result<Expr, OutOfMemory>
        ensures { IfOk result (λ call. call ≡ print_of self.now.known value) }
    {
        self.called(self.known.println, Expr::Local(0), value)
    }

    /// An assignment to the variable in a slot.
    pub(crate) fn assign(&self, slot: usize, value: Expr) -> Result<Option<Expr>, OutOfMemory>
        ensures { IfOk result (λ set. set ≡ Some (core.Assign slot value)) }
    {
        let value = Boxed::new(self.alloc, value)?;
        Ok(Some(Expr::Assign(slot, value)))
    }

    /// An assignment of what an operator's call gives for the variable and a value.
    pub(crate) fn assign_operated(
        &self,
        method: Option<Name>,
        slot: usize,
        value: Expr,
    ) -> Result<Option<Expr>, OutOfMemory>
        ensures { IfOk result (λ set. set ≡ option_map (λ m. core.Assign slot (called m (core.Local slot) value)) method) }
    {
        let Some(method) = method else {
            return Ok(None);
        };
        let call = self.called(method, Expr::Local(slot), value)?;
        self.assign(slot, call)
    }
}
