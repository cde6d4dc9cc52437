ghost use Rattle.std.specs.Prelude.{◌≡◌, IfOk};
ghost use Rattle.gv_checks.specs.Checks.{refusal_of};

use crate::known::Known;
use gv_base::{OutOfMemory, Refusal};
use gv_bodies::first_of_bodies;
use gv_circles::first_of_circles;
use gv_classes::Classes;
use gv_events::events_of;
use gv_loose::first_of_loose;
use gv_repeats::first_of_repeats;
use gv_tops::first_of_tops;
use gv_tree::Script;
use gv_types::first_of_types;
use std::alloc::Global;

/// The first refusal of a file's script that has a tree; None where it has none. The classes are those of all scripts, as
/// `declared_classes` gives them.
pub fn first_refusal(
    alloc: Global,
    known: &Known,
    classes: &Classes,
    file: u8,
    script: &Script,
) -> Result<Option<Refusal>, OutOfMemory>
    ensures { IfOk result (λ refusal. refusal ≡ refusal_of known.now classes.now file script.now) }
{
    let first = first_of_tops(&known.tops, script, None);
    let first = first_of_loose(file, script, first);
    let first = first_of_repeats(alloc, classes, file, first)?;
    let first = first_of_circles(alloc, classes, file, first)?;
    let events = events_of(alloc, known.words(), script)?;
    let first = first_of_types(
        classes,
        known.declare.interceptable,
        script,
        events.as_slice(),
        first,
    );
    first_of_bodies(alloc, events.as_slice(), first)
}
