ghost use Rattle.std.specs.Prelude.{◌≡◌, IfOk};
ghost use Rattle.gv_phases.specs.Phases.{Passes, scripts_refused};
ghost use Rattle.gv_phases.specs.Units.{IsAnalysed};

use crate::error::PhaseError;
use crate::known::Known;
use crate::unit::{Analysed, Converted, Unit};
use gv_base::{OutOfMemory, Refusal};
use gv_checks::first_refusal;
use gv_classes::Classes;
use gv_tree::Script;
use std::alloc::Global;

impl Unit<Converted> {
    /// Semantic analysis: refused with the first refusal of the first file that has one.
    pub fn advance(self) -> Result<Unit<Analysed>, PhaseError>
        ensures { Passes (scripts_refused self.state.known self.state.classes self.scripts.items) (IsAnalysed self) result }
    {
        let Unit {
            alloc,
            names,
            scripts,
            state: Converted { known, classes },
        } = self;
        if let Some(refusal) = refusal_of(alloc, &known, &classes, scripts.as_slice())? {
            return Err(PhaseError::Refused(refusal));
        }
        Ok(Unit {
            alloc,
            names,
            scripts,
            state: Analysed { known, classes },
        })
    }
}

/// The first refusal of the first file that has one.
fn refusal_of(
    alloc: Global,
    known: &Known,
    classes: &Classes,
    scripts: &[Script],
) -> Result<Option<Refusal>, OutOfMemory>
    ensures { IfOk result (λ refusal. refusal ≡ scripts_refused known.now classes.now scripts.now) }
{
    let mut file: u8 = 0;
    for script in scripts {
        if let Some(refusal) = first_refusal(alloc, &known.checks, classes, file, script)? {
            return Ok(Some(refusal));
        }
        file = file.saturating_add(1);
    }
    Ok(None)
}
