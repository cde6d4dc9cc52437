ghost use Rattle.std.specs.Prelude.{◌≡◌, IfOk};
ghost use Rattle.gv_checks.specs.Checks.{refusal_of};
ghost use Rattle.gv_phases.specs.Phases as spec;

use crate::error::ResolveError;
use crate::known::Known;
use gv_base::OutOfMemory;
use gv_checks::first_refusal;
use gv_classes::Classes;
use gv_events::events_of;
use gv_scopes::{Resolved, resolved_of};
use gv_tree::Script;
use std::alloc::Global;

/// What the names of a file's script mean; refused exactly with its first refusal of names, classes and annotations. The classes are
/// those of all files.
pub fn resolve(
    alloc: Global,
    known: &Known,
    classes: &Classes,
    file: u8,
    script: &Script,
) -> Result<Resolved, ResolveError>
    ensures { spec.Resolves (refusal_of known.now.checks classes.now file script.now) (spec.resolved_of known.now classes.now script.now) result }
{
    if let Some(refusal) = first_refusal(alloc, &known.checks, classes, file, script)? {
        return Err(ResolveError::Refused(refusal));
    }
    Ok(names_of(alloc, known, classes, script)?)
}

/// What the names of a script mean, refused or not.
pub(crate) fn names_of(
    alloc: Global,
    known: &Known,
    classes: &Classes,
    script: &Script,
) -> Result<Resolved, OutOfMemory>
    ensures { IfOk result (λ resolved. resolved ≡ spec.resolved_of known.now classes.now script.now) }
{
    let events = events_of(alloc, known.checks.words(), script)?;
    resolved_of(alloc, &known.scopes(), classes, events.as_slice())
}
