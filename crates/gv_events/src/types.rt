//! The classes that written types name.

ghost use Rattle.std.specs.Prelude.{◌≡◌, OnOk};
ghost use Rattle.gv_events.specs.Events as spec;

use crate::event::Event;
use gv_base::OutOfMemory;
use gv_tree::{Answer, TypeTree, VarType};
use sqlite_items::Items;

pub(crate) fn type_tree(class: TypeTree, out: &mut Items<Event>) -> Result<(), OutOfMemory>
    ensures { OnOk result (out.new ≡ spec.type_said class out.old) }
{
    if let TypeTree::Class(name) = class {
        out.push(Event::Class(name))?;
    }
    Ok(())
}

pub(crate) fn types(classes: &[TypeTree], out: &mut Items<Event>) -> Result<(), OutOfMemory>
    ensures { OnOk result (out.new ≡ spec.each spec.type_said classes.now out.old) }
{
    for class in classes {
        type_tree(*class, out)?;
    }
    Ok(())
}

pub(crate) fn written(class: VarType, out: &mut Items<Event>) -> Result<(), OutOfMemory>
    ensures { OnOk result (out.new ≡ spec.written_said class out.old) }
{
    match class {
        VarType::Typed(class) => type_tree(class, out),
        VarType::Def => Ok(()),
    }
}

pub(crate) fn maybe_written(
    class: Option<VarType>,
    out: &mut Items<Event>,
) -> Result<(), OutOfMemory>
    ensures { OnOk result (out.new ≡ spec.if_there spec.written_said class out.old) }
{
    match class {
        Some(class) => written(class, out),
        None => Ok(()),
    }
}

pub(crate) fn answer(class: Answer, out: &mut Items<Event>) -> Result<(), OutOfMemory>
    ensures { OnOk result (out.new ≡ spec.answer_said class out.old) }
{
    match class {
        Answer::Value(class) => written(class, out),
        Answer::Void => Ok(()),
    }
}
