ghost use Rattle.std.specs.Prelude.{◌≡◌, length, IfOk};
ghost use Rattle.gv_circles.specs.Circles as spec;
ghost use Rattle.gv_circles.specs.Circles.{doublings, lowest};
ghost use Rattle.gv_circles.specs.Jumps.{jumps as jumps_of};

use crate::jumps::{Jump, longest};
use gv_base::{ClassId, OutOfMemory, Refusal, RefusalKind};
use gv_classes::{BUILT_IN, Classes, Declared};
use gv_refusals::earlier;
use std::alloc::Global;

/// The first refusal of a file's classes that begin a circle of superclasses, or the one found before where that stands first.
pub fn first_of_circles(
    alloc: Global,
    classes: &Classes,
    file: u8,
    first: Option<Refusal>,
) -> Result<Option<Refusal>, OutOfMemory>
    ensures { IfOk result (λ refusal. refusal ≡ spec.circles_refused classes.now file first) }
{
    let jumps = longest(alloc, classes)?;
    Ok(circles_refused(classes, &jumps, file, first))
}

fn circles_refused(
    classes: &Classes,
    jumps: &[Jump],
    file: u8,
    first: Option<Refusal>,
) -> Option<Refusal>
    requires jumps { jumps.now ≡ jumps_of doublings classes.now }
    requires all { length jumps.now ≡ length classes.now }
    ensures { result ≡ spec.circles_refused classes.now file first }
{
    let mut so_far = first;
    for number in 0..classes.len() {
        let begins = begins_circle(number, jumps[number]);
        so_far = class_refused(begins, file, classes.get(number), so_far);
    }
    so_far
}

/// Whether a class is met again by going up, before which no class of the circle comes.
fn begins_circle(number: ClassId, jump: Jump) -> bool
    ensures { result ≡ spec.begins_at number jump.lowest }
{
    BUILT_IN <= number && jump.lowest == number
}

fn class_refused(
    begins: bool,
    file: u8,
    class: &Declared,
    first: Option<Refusal>,
) -> Option<Refusal>
    ensures { result ≡ spec.class_refused begins file class.now first }
{
    if begins && class.place.file == file {
        earlier(
            first,
            Refusal {
                kind: RefusalKind::SuperclassCircle,
                place: class.place,
            },
        )
    } else {
        first
    }
}
