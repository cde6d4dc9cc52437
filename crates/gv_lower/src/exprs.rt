//! Each expression's core tree.

ghost use Rattle.std.specs.Prelude.{◌≡◌, IfOk, option_and_then};
ghost use Rattle.gv_tree.specs.declared.expr.Expr.{out-Expr};
ghost use Rattle.gv_lower.specs.Core.{atom_core, number, number_in, test_in, printed_in, slot_of, name_in, argument_in, printing, assigned, effect_in};

use crate::lowering::Lowering;
use crate::names::{is_declared, name_in, slot_of};
use crate::operators::{assigned_by, comparison_of, method_of};
use gv_base::{Name, OutOfMemory};
use gv_core::{Const, Expr as Core};
use gv_tree::{Arg, AssignOp, Atom, Expr};

// A literal or a variable.
fn atom_core(vars: &[Name], atom: Atom) -> Option<Core>
    ensures { result ≡ atom_core vars.now atom }
{
    match atom {
        Atom::Int(n) => Some(Core::Const(Const::Int(n))),
        Atom::Long(n) => Some(Core::Const(Const::Long(n))),
        Atom::Name(name) => match slot_of(vars, name) {
            Some(slot) => Some(Core::Local(slot)),
            None => None,
        },
        _ => None,
    }
}

impl Lowering {
    /// A number: literals and variables, joined by `+`, `-` and `*`, so deep in one another.
    #[cycle(numbers)]
    pub(crate) fn number(
        &self,
        levels: u32,
        vars: &[Name],
        expr: &Expr,
    ) -> Result<Option<Core>, OutOfMemory>
        ensures { IfOk result (λ core. core ≡ number self.now.known levels vars.now expr.now) }
    {
        if levels == 0 {
            return Ok(None);
        }
        self.number_in(levels - 1, vars, expr)
    }

    #[cycle(numbers)]
    fn number_in(
        &self,
        levels: u32,
        vars: &[Name],
        expr: &Expr,
    ) -> Result<Option<Core>, OutOfMemory>
        ensures { IfOk result (λ core. core ≡ number_in self.now.known (number self.now.known levels vars.now) vars.now (out-Expr expr.now)) }
    {
        match expr {
            Expr::Atom(_, atom) => Ok(atom_core(vars, *atom)),
            Expr::Paren(_, inner) => self.number(levels, vars, inner.get()),
            Expr::Binary(_, op, left, right) => {
                let left = self.number(levels, vars, left.get())?;
                let right = self.number(levels, vars, right.get())?;
                self.operated(method_of(self.known, *op), left, right)
            }
            _ => Ok(None),
        }
    }

    /// A condition: a literal, or two numbers compared.
    pub(crate) fn test(&self, vars: &[Name], expr: &Expr) -> Result<Option<Core>, OutOfMemory>
        ensures { IfOk result (λ core. core ≡ test_in self.now.known self.now.levels vars.now (out-Expr expr.now)) }
    {
        match expr {
            Expr::Atom(_, Atom::Bool(truth)) => Ok(Some(Core::Const(Const::Bool(*truth)))),
            Expr::Binary(_, op, left, right) => {
                let left = self.number(self.levels, vars, left.get())?;
                let right = self.number(self.levels, vars, right.get())?;
                self.compared(comparison_of(*op), left, right)
            }
            _ => Ok(None),
        }
    }

    // What is printed: a string or a number.
    fn printed(&self, vars: &[Name], expr: &Expr) -> Result<Option<Core>, OutOfMemory>
        ensures { IfOk result (λ core. core ≡ printed_in self.now.known self.now.levels vars.now expr.now (out-Expr expr.now)) }
    {
        match expr {
            Expr::Atom(_, Atom::Text(text)) => Ok(Some(Core::Const(Const::Text(*text)))),
            _ => self.number(self.levels, vars, expr),
        }
    }

    // The only argument.
    fn argument(&self, vars: &[Name], args: &[Arg]) -> Result<Option<Core>, OutOfMemory>
        ensures { IfOk result (λ core. core ≡ argument_in self.now.known self.now.levels vars.now args.now) }
    {
        match args {
            [Arg::Plain(expr)] => self.printed(vars, expr.get()),
            _ => Ok(None),
        }
    }

    // A call of `println`, where no variable has that name.
    fn printing(
        &self,
        vars: &[Name],
        callee: Option<Name>,
        args: &[Arg],
    ) -> Result<Option<Core>, OutOfMemory>
        ensures { IfOk result (λ core. core ≡ printing self.now.known self.now.levels vars.now callee args.now) }
    {
        let Some(name) = callee else {
            return Ok(None);
        };
        if is_declared(vars, name) {
            return Ok(None);
        }
        if name != self.known.println {
            return Ok(None);
        }
        let Some(value) = self.argument(vars, args)? else {
            return Ok(None);
        };
        let call = self.print_of(value)?;
        Ok(Some(call))
    }

    // An assignment to a variable.
    fn assigned(
        &self,
        op: AssignOp,
        slot: Option<usize>,
        value: Option<Core>,
    ) -> Result<Option<Core>, OutOfMemory>
        ensures { IfOk result (λ core. core ≡ assigned self.now.known op slot value) }
    {
        let (Some(slot), Some(value)) = (slot, value) else {
            return Ok(None);
        };
        match op {
            AssignOp::Plain => self.assign(slot, value),
            _ => self.assign_operated(assigned_by(self.known, op), slot, value),
        }
    }

    /// What is done for its effect.
    pub(crate) fn effect(&self, vars: &[Name], expr: &Expr) -> Result<Option<Core>, OutOfMemory>
        ensures { IfOk result (λ core. core ≡ effect_in self.now.known self.now.levels vars.now expr.now (out-Expr expr.now)) }
    {
        match expr {
            Expr::Assign(_, op, target, value) => {
                let value = self.number(self.levels, vars, value.get())?;
                self.assigned(*op, target_slot(vars, target.get()), value)
            }
            Expr::Call(_, callee, args) => self.printing(
                vars,
                name_in(callee.get()),
                args.as_slice(),
            ),
            _ => self.number(self.levels, vars, expr),
        }
    }
}

// The slot of the variable that an expression is.
fn target_slot(vars: &[Name], target: &Expr) -> Option<usize>
    ensures { result ≡ option_and_then (slot_of vars.now) (name_in (out-Expr target.now)) }
{
    match name_in(target) {
        Some(name) => slot_of(vars, name),
        None => None,
    }
}
