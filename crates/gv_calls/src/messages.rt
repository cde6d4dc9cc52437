ghost use Rattle.std.specs.Prelude.{◌≡◌, ◌++◌, IfOk, OnOk, string_bytes};
ghost use Rattle.gv_meaning.specs.Calls as spec;

use gv_base::{Name, OutOfMemory, Value};
use gv_meaning::World;
use gv_rows::{class_name, class_of};
use std::alloc::Global;

/// The message of a call that no method answers.
pub(crate) fn no_signature(
    alloc: Global,
    world: &World,
    name: Name,
    receiver: Value,
    args: &[Value],
) -> Result<String, OutOfMemory>
    ensures { IfOk result (λ text. string_bytes text ≡ spec.no_signature world.now name receiver args.now) }
{
    let mut text = String::from_str(alloc, "No signature of method: ")?;
    text.push_str(kind_text(world, receiver))?;
    text.push_str(".")?;
    text.push_str(world.names.text(name))?;
    text.push_str("() is applicable for argument types: (")?;
    push_kinds(world, args, &mut text)?;
    text.push_str(")")?;
    Ok(text)
}

/// The message of a call on null.
pub(crate) fn on_null(alloc: Global, world: &World, name: Name) -> Result<String, OutOfMemory>
    ensures { IfOk result (λ text. string_bytes text ≡ spec.on_null world.now name) }
{
    let name = world.names.text(name);
    format!(in alloc; "Cannot invoke method {name}() on null object")
}

/// Puts the names of the classes of values behind a text, with commas.
fn push_kinds(world: &World, values: &[Value], text: &mut String) -> Result<(), OutOfMemory>
    ensures { OnOk result (string_bytes text.new ≡ string_bytes text.old ++ spec.kinds_text world.now values.now) }
{
    let [first, rest @ ..] = values else {
        return Ok(());
    };
    text.push_str(kind_text(world, *first))?;
    for value in rest {
        text.push_str(", ")?;
        text.push_str(kind_text(world, *value))?;
    }
    Ok(())
}

/// The name of the class of a value; null has its own.
fn kind_text(world: &World, value: Value) -> &str
    ensures { result.now ≡ spec.kind_text world.now value }
{
    match value {
        Value::Null => "null",
        _ => class_name(&world.names, &world.classes, class_of(&world.heap, value)),
    }
}
