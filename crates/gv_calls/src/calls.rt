ghost use Rattle.std.specs.Prelude.{◌≡◌, IfOk, Some, option_map};
ghost use Rattle.gv_calls.specs.Told.{answer_of, chosen_of};
ghost use Rattle.gv_base.specs.declared.exception.ExceptionKind.TheVariants.{MissingMethodException};
ghost use Rattle.gv_meaning.specs.Calls as spec;
ghost use Rattle.gv_natives.specs.Table.{method_of};

use crate::kinds::kinds_of;
use crate::messages::{no_signature, on_null};
use crate::methods::run_row;
use crate::raise::raise;
use crate::rows::row_for;
use crate::takes::takes_all;
use crate::told::{Chosen, Told};
use gv_base::{ExceptionKind, Name, OutOfMemory, Value};
use gv_meaning::{Why, World};
use gv_natives::Row;
use std::alloc::Global;

/// A call of a method by its name on the first of these values, with the others as arguments. It takes a tick, and looks its
/// method up in the world as it is. A call on no value gives null.
pub fn call(
    alloc: Global,
    world: &mut World,
    name: Name,
    args: &[Value],
) -> Result<Chosen, OutOfMemory>
    ensures { IfOk result (λ chosen. chosen_of chosen world.new ≡ spec.call_of name args.now world.old) }
{
    let [receiver, args @ ..] = args else {
        return Ok(Chosen::Else(Told::Got(Value::Null)));
    };
    if world.ticks == 0 {
        return Ok(Chosen::Else(Told::Stopped(Why::Ticks)));
    }
    world.ticks -= 1;
    call_paid(alloc, world, name, *receiver, args)
}

/// A call whose tick is taken.
fn call_paid(
    alloc: Global,
    world: &mut World,
    name: Name,
    receiver: Value,
    args: &[Value],
) -> Result<Chosen, OutOfMemory>
    ensures { IfOk result (λ chosen. chosen_of chosen world.new ≡ spec.called name receiver args.now world.old) }
{
    match receiver {
        Value::Null => {
            let message = on_null(alloc, world, name)?;
            let told = raise(alloc, world, ExceptionKind::NullPointerException, &message)?;
            Ok(Chosen::Else(told))
        }
        _ => {
            let kinds = kinds_of(&world.heap, receiver);
            let row = row_for(kinds, world.names.text(name), args.len());
            let told = call_row(alloc, world, row, name, receiver, args)?;
            Ok(Chosen::Else(told))
        }
    }
}

/// A call with the row that was found for it, if one was.
fn call_row(
    alloc: Global,
    world: &mut World,
    row: Option<Row>,
    name: Name,
    receiver: Value,
    args: &[Value],
) -> Result<Told, OutOfMemory>
    ensures { IfOk result (λ told. answer_of told world.new ≡ spec.row_called (option_map method_of row) name receiver args.now world.old) }
{
    let Some(row) = row else {
        return miss(alloc, world, name, receiver, args);
    };
    if takes_all(&world.heap, &row, args) {
        run_row(alloc, world, row.name, receiver, args)
    } else {
        miss(alloc, world, name, receiver, args)
    }
}

/// No method answers the call.
fn miss(
    alloc: Global,
    world: &mut World,
    name: Name,
    receiver: Value,
    args: &[Value],
) -> Result<Told, OutOfMemory>
    ensures { IfOk result (λ told. answer_of told world.new ≡ spec.raised MissingMethodException (Some (spec.no_signature world.old name receiver args.now)) world.old) }
{
    let message = no_signature(alloc, world, name, receiver, args)?;
    raise(
        alloc,
        world,
        ExceptionKind::MissingMethodException,
        &message,
    )
}
