ghost use Rattle.std.specs.Prelude.{◌≡◌};
ghost use Rattle.gv_types.specs.Types as spec;

use crate::heads::heads_refused;
use crate::names::name_refused;
use gv_base::{Name, Refusal};
use gv_classes::Classes;
use gv_events::Event;
use gv_tree::Script;

/// The first refusal of the names of classes in a script, or the one found before where that stands first. The events are the
/// script's own, and `interceptable` is the name `GroovyInterceptable`.
pub fn first_of_types(
    classes: &Classes,
    interceptable: Name,
    script: &Script,
    events: &[Event],
    first: Option<Refusal>,
) -> Option<Refusal>
    ensures { result ≡ spec.types_refused classes.now interceptable script.now events.now first }
{
    let so_far = events_refused(classes, events, first);
    heads_refused(classes, interceptable, script.tops.as_slice(), so_far)
}

fn event_refused(classes: &Classes, event: Event, first: Option<Refusal>) -> Option<Refusal>
    ensures { result ≡ spec.event_refused classes.now event first }
{
    match event {
        Event::Class(ident) => name_refused(classes.named(ident.name).is_some(), ident, first),
        _ => first,
    }
}

fn events_refused(classes: &Classes, events: &[Event], first: Option<Refusal>) -> Option<Refusal>
    ensures { result ≡ spec.events_refused classes.now events.now first }
{
    let mut so_far = first;
    for event in events {
        so_far = event_refused(classes, *event, so_far);
    }
    so_far
}
