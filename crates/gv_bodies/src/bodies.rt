ghost use Rattle.std.specs.Prelude.{◌≡◌, IfOk};
ghost use Rattle.gv_bodies.specs.Bodies as spec;

use crate::watch::Watch;
use gv_base::{OutOfMemory, Refusal};
use gv_events::Event;
use std::alloc::Global;

/// The first refusal of a script's bodies, by its events, or one that was found before where that stands first.
pub fn first_of_bodies(
    alloc: Global,
    events: &[Event],
    first: Option<Refusal>,
) -> Result<Option<Refusal>, OutOfMemory>
    ensures { IfOk result (λ refusal. refusal ≡ spec.bodies_refused events.now first) }
{
    let mut watch = Watch::new(alloc, first);
    for event in events {
        watch.pass(*event)?;
    }
    Ok(watch.first())
}
