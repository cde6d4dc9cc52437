//! Statements' core trees, put together.

ghost use Rattle.std.specs.Prelude.{◌≡◌, ℕ, List, Some, option_map, IfOk, OnOk};
ghost use Rattle.gv_core.specs.declared.stmt.Stmt.TheVariants as stmt;
ghost use Rattle.gv_lower.specs.Core.{alone, chosen, declared, left, repeated, tree_of};
ghost use Rattle.gv_lower.specs.Placed.{behind, made_of};

use crate::names::is_declared;
use gv_base::{Name, OutOfMemory};
use gv_core::{Expr, Stmt};
use gv_tree::Leave;
use sqlite_items::{Boxed, Items};
use std::alloc::Global;

/// A statement's core tree, and the variable that it declares for those behind it.
#[derive(Drop)]
pub(crate) struct Placed {
    pub(crate) tree: Stmt,
    pub(crate) declared: Option<Name>,
}

/// The variables in scope behind a statement.
pub(crate) fn declare(vars: &mut Items<Name>, declared: Option<Name>) -> Result<(), OutOfMemory>
    ensures { OnOk result (vars.new ≡ behind vars.old declared) }
{
    if let Some(name) = declared {
        vars.push(name)?;
    }
    Ok(())
}

/// A statement that declares nothing, where its tree is built.
pub(crate) fn alone(tree: Option<Stmt>) -> Option<Placed>
    ensures { (vars : List ℕ) → made_of vars result ≡ option_map (alone vars) tree }
{
    match tree {
        Some(tree) => Some(Placed {
            tree,
            declared: None,
        }),
        None => None,
    }
}

/// A statement's tree, whose variable ends with it.
pub(crate) fn tree_of(placed: Option<Placed>) -> Option<Stmt>
    ensures { (vars : List ℕ) → result ≡ tree_of (made_of vars placed) }
{
    match placed {
        Some(placed) => Some(placed.tree),
        None => None,
    }
}

/// An expression for its effect, where it is built.
pub(crate) fn done(value: Option<Expr>) -> Option<Placed>
    ensures { (vars : List ℕ) → made_of vars result ≡ option_map (λ x. alone vars (stmt.Do x)) value }
{
    match value {
        Some(value) => Some(Placed {
            tree: Stmt::Do(value),
            declared: None,
        }),
        None => None,
    }
}

/// Statements with a scope of their own, where they are built.
pub(crate) fn block(all: Option<Items<Stmt>>) -> Option<Placed>
    ensures { (vars : List ℕ) → made_of vars result ≡ option_map (λ ss. alone vars (stmt.Block ss)) all }
{
    match all {
        Some(all) => Some(Placed {
            tree: Stmt::Block(all),
            declared: None,
        }),
        None => None,
    }
}

/// A declared variable, where its value is built and its name isn't in scope yet.
pub(crate) fn declared(vars: &[Name], name: Name, value: Option<Expr>) -> Option<Placed>
    ensures { made_of vars.now result ≡ declared vars.now name value }
{
    let Some(value) = value else {
        return None;
    };
    if is_declared(vars, name) {
        return None;
    }
    Some(Placed {
        tree: Stmt::Declare(false, value),
        declared: Some(name),
    })
}

/// A choice, where its parts are built.
pub(crate) fn chosen(
    alloc: Global,
    test: Option<Expr>,
    first: Option<Stmt>,
    second: Option<Stmt>,
) -> Result<Option<Stmt>, OutOfMemory>
    ensures { IfOk result (λ tree. tree ≡ chosen test first second) }
{
    let (Some(test), Some(first), Some(second)) = (test, first, second) else {
        return Ok(None);
    };
    let first = Boxed::new(alloc, first)?;
    let second = Boxed::new(alloc, second)?;
    Ok(Some(Stmt::If(test, first, second)))
}

/// A loop, where its parts are built.
pub(crate) fn repeated(
    alloc: Global,
    test: Option<Expr>,
    body: Option<Stmt>,
) -> Result<Option<Stmt>, OutOfMemory>
    ensures { IfOk result (λ tree. tree ≡ repeated test body) }
{
    let (Some(test), Some(body)) = (test, body) else {
        return Ok(None);
    };
    let body = Boxed::new(alloc, body)?;
    Ok(Some(Stmt::While(test, body)))
}

/// A way out, where a loop is there.
pub(crate) fn left(in_loop: bool, leave: Leave) -> Option<Stmt>
    ensures { result ≡ left in_loop leave }
{
    if !in_loop {
        return None;
    }
    match leave {
        Leave::Break => Some(Stmt::Break),
        Leave::Continue => Some(Stmt::Continue),
    }
}
