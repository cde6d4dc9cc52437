ghost use Rattle.std.specs.Prelude.{◌≡◌, ◌+◌, ◌≤◌, [], length, IfOk, OnOk};
ghost use Rattle.gv_heap.specs.Heap.{with_new, pay};
ghost use Rattle.gv_meaning.specs.Opening.{with_literals, numbered, opened_world};
ghost use Rattle.gv_heap.specs.declared.object.Object.TheVariants.{Instance as InstanceObject};

use crate::output::Output;
use crate::world::World;
use gv_base::{ClassId, Limits, Name, Names, ObjId, OutOfMemory};
use gv_classes::Classes;
use gv_heap::{Heap, HeapError};
use sqlite_items::Items;
use std::alloc::Global;

/// The world in which a script begins: its object is made, its texts are strings, and nothing else was done. Its class is the last
/// of the classes.
pub fn opening(
    alloc: Global,
    names: &Names,
    classes: Classes,
    texts: &[Name],
    limits: Limits,
) -> Result<World, OutOfMemory>
    ensures { IfOk result (λ world. world ≡ opened_world names.now classes texts.now limits) }
{
    let names = names.copy(alloc)?;
    let mut heap = Heap::new(alloc, limits.cells.saturating_add(1));
    let script = make_script(alloc, classes.len() - 1, &mut heap)?;
    let literals = make_literals(alloc, &names, texts, &mut heap)?;
    Ok(World {
        names,
        classes,
        heap,
        literals,
        script,
        instances: 0,
        output: Output::new(alloc),
        ticks: limits.ticks,
        depth: limits.depth,
    })
}

/// A string for each text, in order, and which is whose.
fn make_literals(
    alloc: Global,
    names: &Names,
    texts: &[Name],
    heap: &mut Heap,
) -> Result<Items<(Name, ObjId)>, OutOfMemory>
    ensures numbers { IfOk result (λ literals. literals ≡ numbered (length heap.old.objects) texts.now) }
    ensures strings { OnOk result (heap.new ≡ with_literals names.now texts.now heap.old) }
{
    let mut literals = Vec::new(alloc);
    for text in texts {
        let id = heap.make_literal(names.text(*text))?;
        literals.push((*text, id))?;
    }
    Ok(Items::from_vec(literals))
}

/// The object of a script, which is an instance of its class without fields. It takes a cell, and one has to be there.
fn make_script(alloc: Global, class: ClassId, heap: &mut Heap) -> Result<ObjId, OutOfMemory>
    requires { 1 ≤ heap.old.cells }
    ensures id { IfOk result (λ id. id ≡ length heap.old.objects) }
    ensures object { OnOk result (heap.new ≡ pay (with_new heap.old (InstanceObject (record { class = class; fields = []; number = 0 }))) 1) }
{
    match heap.make_instance(class, Vec::new(alloc), 0) {
        Ok(id) => Ok(id),
        Err(HeapError::OutOfMemory) => Err(OutOfMemory),
        Err(HeapError::CellsSpent) => unreachable!(),
    }
}
