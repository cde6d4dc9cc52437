//! Going up many steps at once.

ghost use Rattle.std.specs.Prelude.{◌≡◌, ◌<◌, ◌≤◌, length, IfOk};
ghost use Rattle.std.specs.List.{All};
ghost use Rattle.gv_classes.specs.Classes.{up};
ghost use Rattle.gv_circles.specs.Circles.{doublings};
ghost use Rattle.gv_circles.specs.Jumps as spec;

use gv_base::{ClassId, OutOfMemory};
use gv_classes::{BUILT_IN, Classes, OBJECT};
use std::alloc::Global;

/// 2 ^ 32 steps are more than there are classes.
const DOUBLINGS: usize = 32;

/// Some steps up from a class.
#[derive(Clone, Copy, Debug, PartialEq, Eq)]
pub(crate) struct Jump {
    /// Where they come.
    pub(crate) far: ClassId,
    /// The first, by number, of the classes met on them.
    pub(crate) lowest: ClassId,
}

impl Jump {
    /// One step.
    fn step(above: ClassId) -> Jump
        ensures far { result.far ≡ above }
        ensures lowest { result.lowest ≡ above }
    {
        Jump {
            far: above,
            lowest: above,
        }
    }

    /// This one, and one on from where it comes.
    fn then(self, next: Jump) -> Jump
        ensures { result ≡ spec.joined self next }
    {
        Jump {
            far: next.far,
            lowest: self.lowest.min(next.lowest),
        }
    }
}

/// 2 ^ 32 steps up from each class, by their numbers.
pub(crate) fn longest(alloc: Global, classes: &Classes) -> Result<Vec<Jump>, OutOfMemory>
    ensures jumps { IfOk result (λ jumps. jumps.items ≡ spec.jumps doublings classes.now) }
    ensures all { IfOk result (λ jumps. length jumps.items ≡ length classes.now) }
{
    let mut jumps = steps(alloc, classes)?;
    for doubling in 0..DOUBLINGS {
        jumps = doubled(alloc, &jumps)?;
    }
    Ok(jumps)
}

/// One step up from each class.
fn steps(alloc: Global, classes: &Classes) -> Result<Vec<Jump>, OutOfMemory>
    ensures steps { IfOk result (λ jumps. jumps.items ≡ spec.jumps 0 classes.now) }
    ensures built_in { BUILT_IN ≤ length classes.now }
{
    let mut jumps = Vec::new(alloc);
    for class in 0..classes.len() {
        jumps.push(Jump::step(above(classes, class)))?;
    }
    Ok(jumps)
}

/// Twice as many steps.
fn doubled(alloc: Global, jumps: &[Jump]) -> Result<Vec<Jump>, OutOfMemory>
    requires { All (λ jump. jump.far < length jumps.now) jumps.now }
    ensures { IfOk result (λ longer. longer.items ≡ spec.doubled jumps.now) }
{
    let mut longer = Vec::new(alloc);
    for jump in jumps {
        longer.push(jump.then(jumps[jump.far]))?;
    }
    Ok(longer)
}

/// The class of the name of the superclass, or Object where no class has it.
fn above(classes: &Classes, class: ClassId) -> ClassId
    requires { class < length classes.now }
    ensures above { result ≡ up classes.now class }
{
    match classes.named(classes.get(class).above) {
        Some(above) => above,
        None => OBJECT,
    }
}
