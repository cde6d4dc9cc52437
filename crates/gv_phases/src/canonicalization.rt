ghost use Rattle.std.specs.Prelude.{◌≡◌, None, IfOk};
ghost use Rattle.gv_phases.specs.Phases.{Passes, all_resolved};
ghost use Rattle.gv_phases.specs.Units.{IsCanonical};

use crate::error::PhaseError;
use crate::known::Known;
use crate::resolution::names_of;
use crate::unit::{Analysed, Canonical, Unit};
use gv_base::OutOfMemory;
use gv_classes::Classes;
use gv_scopes::Resolved;
use gv_tree::Script;
use std::alloc::Global;

impl Unit<Analysed> {
    /// Canonicalization: tells what the names mean. No transformation is built yet, and nothing is refused.
    pub fn advance(self) -> Result<Unit<Canonical>, PhaseError>
        ensures { Passes None (IsCanonical self) result }
    {
        let Unit {
            alloc,
            names,
            scripts,
            state: Analysed { known, classes },
        } = self;
        let resolved = all_resolved(alloc, &known, &classes, scripts.as_slice())?;
        Ok(Unit {
            alloc,
            names,
            scripts,
            state: Canonical { classes, resolved },
        })
    }
}

fn all_resolved(
    alloc: Global,
    known: &Known,
    classes: &Classes,
    scripts: &[Script],
) -> Result<Vec<Resolved>, OutOfMemory>
    ensures { IfOk result (λ resolved. resolved.items ≡ all_resolved known.now classes.now scripts.now) }
{
    let mut resolved = Vec::new(alloc);
    for script in scripts {
        resolved.push(names_of(alloc, known, classes, script)?)?;
    }
    Ok(resolved)
}
