ghost use Rattle.std.specs.Prelude.{◌≡◌, IfOk};
ghost use Rattle.gv_scopes.specs.Scopes as spec;

use crate::fields::OwnFields;
use crate::known::Known;
use crate::resolved::Resolved;
use crate::resolver::Resolver;
use gv_base::OutOfMemory;
use gv_classes::Classes;
use gv_events::Event;
use std::alloc::Global;

/// What the names of a script mean, by its events. The classes are those of all files.
pub fn resolved_of(
    alloc: Global,
    known: &Known,
    classes: &Classes,
    events: &[Event],
) -> Result<Resolved, OutOfMemory>
    ensures { IfOk result (λ resolved. resolved ≡ spec.resolved_of known.now classes.now events.now) }
{
    let script = OwnFields::of_class(alloc, classes, classes.named(known.script))?;
    let mut resolver = Resolver::new(alloc, script);
    for event in events {
        resolver.pass(known, classes, *event)?;
    }
    Ok(resolver.into_resolved())
}
