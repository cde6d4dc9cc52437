//! Each statement's core tree.

ghost use Rattle.std.specs.Prelude.{◌≡◌, IfOk};
ghost use Rattle.gv_tree.specs.declared.stmt.Decl.{out-Decl};
ghost use Rattle.gv_tree.specs.declared.stmt.Stmt.{out-Stmt};
ghost use Rattle.gv_lower.specs.Core.{all_of, declared_in, made, or_nothing, stmt_in, tree_of, var_in};
ghost use Rattle.gv_lower.specs.Placed.{made_of};

use crate::lowering::Lowering;
use crate::placed::{
    Placed, alone, block, chosen, declare, declared, done, left, repeated, tree_of,
};
use gv_base::{Name, OutOfMemory};
use gv_core::Stmt as Core;
use gv_tree::{Decl, Stmt, Var, VarType};
use sqlite_items::{Boxed, Items};

impl Lowering {
    // A declared variable and its value.
    fn var(&self, vars: &[Name], var: &Var) -> Result<Option<Placed>, OutOfMemory>
        ensures { IfOk result (λ placed. made_of vars.now placed ≡ var_in self.now.known self.now.levels vars.now var.now) }
    {
        let Some(initial) = &var.initial else {
            return Ok(None);
        };
        let value = self.number(self.levels, vars, initial.get())?;
        Ok(declared(vars, var.ident.name, value))
    }

    // `def`, one variable, and its value.
    fn declaration(&self, vars: &[Name], decl: &Decl) -> Result<Option<Placed>, OutOfMemory>
        ensures { IfOk result (λ placed. made_of vars.now placed ≡ declared_in self.now.known self.now.levels vars.now (out-Decl decl.now).is_final (out-Decl decl.now).written (out-Decl decl.now).vars) }
    {
        match (decl.is_final, decl.written, decl.vars.as_slice()) {
            (false, VarType::Def, [var]) => self.var(vars, var),
            _ => Ok(None),
        }
    }

    /// A statement, as deep as so many may stand in one another.
    #[cycle(stmts)]
    pub(crate) fn stmt(
        &self,
        levels: u32,
        in_loop: bool,
        vars: &[Name],
        stmt: &Stmt,
    ) -> Result<Option<Placed>, OutOfMemory>
        ensures { IfOk result (λ placed. made_of vars.now placed ≡ made self.now.known self.now.levels levels in_loop vars.now stmt.now) }
    {
        if levels == 0 {
            return Ok(None);
        }
        self.stmt_in(levels - 1, in_loop, vars, stmt)
    }

    #[cycle(stmts)]
    fn stmt_in(
        &self,
        levels: u32,
        in_loop: bool,
        vars: &[Name],
        stmt: &Stmt,
    ) -> Result<Option<Placed>, OutOfMemory>
        ensures { IfOk result (λ placed. made_of vars.now placed ≡ stmt_in self.now.known self.now.levels (made self.now.known self.now.levels levels) in_loop vars.now (out-Stmt stmt.now)) }
    {
        match stmt {
            Stmt::Decl(decl) => self.declaration(vars, decl),
            Stmt::Expr(expr) => {
                let value = self.effect(vars, expr.get())?;
                Ok(done(value))
            }
            Stmt::Block(_, all) => {
                let all = self.all_of(levels, in_loop, vars, all.as_slice())?;
                Ok(block(all))
            }
            Stmt::If(_, test, first, second) => {
                let test = self.test(vars, test.get())?;
                let first = self.tree(levels, in_loop, vars, first.get())?;
                let second = self.or_nothing(levels, in_loop, vars, second)?;
                let choice = chosen(self.alloc, test, first, second)?;
                Ok(alone(choice))
            }
            Stmt::While(_, test, body) => {
                let test = self.test(vars, test.get())?;
                let body = self.tree(levels, true, vars, body.get())?;
                let repetition = repeated(self.alloc, test, body)?;
                Ok(alone(repetition))
            }
            Stmt::Leave(_, leave) => Ok(alone(left(in_loop, *leave))),
            _ => Ok(None),
        }
    }

    // Statements in order, each with the variables of those before it.
    #[cycle(stmts)]
    fn all_of(
        &self,
        levels: u32,
        in_loop: bool,
        vars: &[Name],
        all: &[Stmt],
    ) -> Result<Option<Items<Core>>, OutOfMemory>
        ensures { IfOk result (λ trees. trees ≡ all_of (made self.now.known self.now.levels levels) in_loop vars.now all.now) }
    {
        let mut scope = Items::from_slice(self.alloc, vars)?;
        let mut trees = Items::new(self.alloc);
        for stmt in all {
            let Some(placed) = self.stmt(levels, in_loop, scope.as_slice(), stmt)? else {
                return Ok(None);
            };
            trees.push(placed.tree)?;
            declare(&mut scope, placed.declared)?;
        }
        Ok(Some(trees))
    }

    // A statement whose variable ends with it.
    #[cycle(stmts)]
    fn tree(
        &self,
        levels: u32,
        in_loop: bool,
        vars: &[Name],
        stmt: &Stmt,
    ) -> Result<Option<Core>, OutOfMemory>
        ensures { IfOk result (λ tree. tree ≡ tree_of (made self.now.known self.now.levels levels in_loop vars.now stmt.now)) }
    {
        let placed = self.stmt(levels, in_loop, vars, stmt)?;
        Ok(tree_of(placed))
    }

    // A statement that may be left out.
    #[cycle(stmts)]
    fn or_nothing(
        &self,
        levels: u32,
        in_loop: bool,
        vars: &[Name],
        stmt: &Option<Boxed<Stmt>>,
    ) -> Result<Option<Core>, OutOfMemory>
        ensures { IfOk result (λ tree. tree ≡ or_nothing (made self.now.known self.now.levels levels) in_loop vars.now stmt.now) }
    {
        match stmt {
            Some(stmt) => self.tree(levels, in_loop, vars, stmt.get()),
            None => Ok(Some(Core::Block(Items::new(self.alloc)))),
        }
    }
}
