//! A script's core tree.

ghost use Rattle.std.specs.Prelude.{◌≡◌, [], IfOk};
ghost use Rattle.gv_lower.specs.Core.{body, tops_of, top_made, unit_of};
ghost use Rattle.gv_lower.specs.Placed.{made_of};

use crate::known::Known;
use crate::lowering::Lowering;
use crate::placed::{Placed, declare};
use gv_base::{Name, OutOfMemory};
use gv_core::{Source, Stmt};
use gv_tree::{Script, Top};
use sqlite_items::Items;
use std::alloc::Global;

// As deep as expressions and statements may stand in one another: three levels for each of the 300
// that may be open at a place of the grammar, and some.
const MOST_LEVELS: u32 = 1000;

impl Lowering {
    fn top(&self, vars: &[Name], top: &Top) -> Result<Option<Placed>, OutOfMemory>
        ensures { IfOk result (λ placed. made_of vars.now placed ≡ top_made self.now.known self.now.levels vars.now top.now) }
    {
        match top {
            Top::Stmt(stmt) => self.stmt(self.levels, false, vars, stmt),
            _ => Ok(None),
        }
    }

    // Statements at the top, each with the variables of those before it.
    fn tops_of(&self, all: &[Top]) -> Result<Option<Items<Stmt>>, OutOfMemory>
        ensures { IfOk result (λ trees. trees ≡ tops_of self.now.known self.now.levels [] all.now) }
    {
        let mut scope = Items::new(self.alloc);
        let mut trees = Items::new(self.alloc);
        for top in all {
            let Some(placed) = self.top(scope.as_slice(), top)? else {
                return Ok(None);
            };
            trees.push(placed.tree)?;
            declare(&mut scope, placed.declared)?;
        }
        Ok(Some(trees))
    }
}

// The script's body has no captured variable, and `this` is its only parameter.
fn body(all: Items<Stmt>) -> Source
    ensures { result ≡ body all }
{
    Source {
        captured: 0,
        parameters: 1,
        tree: Stmt::Block(all),
    }
}

/// The bodies of a script, of which the first starts its run; `None` where a form of it isn't built.
pub fn lower(
    alloc: Global,
    known: Known,
    script: &Script,
) -> Result<Option<Items<Source>>, OutOfMemory>
    ensures { IfOk result (λ unit. unit ≡ unit_of known script.now) }
{
    let lowering = Lowering {
        alloc,
        known,
        levels: MOST_LEVELS,
    };
    let Some(all) = lowering.tops_of(script.tops.as_slice())? else {
        return Ok(None);
    };
    let mut unit = Items::new(alloc);
    unit.push(body(all))?;
    Ok(Some(unit))
}
