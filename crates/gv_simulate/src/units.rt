ghost use Rattle.std.specs.Prelude.{◌≡◌, IfOk};
ghost use Rattle.gv_meaning.specs.Meaning.{meaning};
ghost use Rattle.gv_simulate.specs.Report.{report_of};

use crate::report::{Report, tell};
use gv_base::OutOfMemory;
use gv_core::Source;
use gv_emit::emit;
use gv_meaning::World;
use gv_run::run;
use std::alloc::Global;

/// What a unit prints in a world, and how its run ends.
pub fn run_unit(alloc: Global, unit: &[Source], world: World) -> Result<Report, OutOfMemory>
    ensures { IfOk result (λ report. report ≡ report_of (meaning unit.now world)) }
{
    let code = emit(alloc, unit)?;
    let (told, world) = run(alloc, code.bodies.as_slice(), world)?;
    tell(alloc, told, world)
}
