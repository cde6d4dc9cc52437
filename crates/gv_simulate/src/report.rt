//! What is told of a run.

ghost use Rattle.std.specs.Prelude.{◌≡◌, IfOk, Some, option_copied, string_bytes};
ghost use Rattle.gv_calls.specs.Told.{answer_of};
ghost use Rattle.gv_simulate.specs.Report as spec;

use gv_base::{OutOfMemory, Text, Value};
use gv_calls::Told;
use gv_heap::{Heap, Object};
use gv_meaning::{Output, Why, World};
use gv_rows::{class_name, class_of};
use std::alloc::Global;

/// How a run ended.
#[derive(Debug, Drop)]
pub enum Ending {
    /// With a value.
    Value,
    /// With an exception that nothing caught: the name of its class, and its message where it has one.
    Uncaught(Text),
    /// Something was spent.
    Stopped(Why),
}

/// What a run printed, and how it ended.
#[derive(Debug, Drop)]
pub struct Report {
    pub output: Output,
    pub ending: Ending,
}

/// The text of an object, where it is a String.
fn text_at(heap: &Heap, value: Value) -> Option<&str>
    ensures { option_copied result ≡ spec.text_at heap.now value }
{
    let Value::Obj(id) = value else {
        return None;
    };
    match heap.get(id) {
        Some(Object::Text(text)) => Some(text.as_str()),
        _ => None,
    }
}

/// The message of an exception, where it has one.
fn message_of(heap: &Heap, exception: Value) -> Option<&str>
    ensures { option_copied result ≡ spec.message_of heap.now exception }
{
    let Value::Obj(id) = exception else {
        return None;
    };
    let Some(Object::Instance(instance)) = heap.get(id) else {
        return None;
    };
    match instance.fields.as_slice() {
        [message, ..] => text_at(heap, *message),
        [] => None,
    }
}

/// A name, and a message behind it.
fn with_message(alloc: Global, name: &str, message: &str) -> Result<String, OutOfMemory>
    ensures { IfOk result (λ text. string_bytes text ≡ spec.with_message name.now (Some message.now)) }
{
    let mut text = String::from_str(alloc, name)?;
    text.push_str(": ")?;
    text.push_str(message)?;
    Ok(text)
}

/// The name of an exception's class, and its message where it has one.
fn uncaught_text(alloc: Global, exception: Value, world: &World) -> Result<Text, OutOfMemory>
    ensures { IfOk result (λ text. text ≡ spec.uncaught_text exception world.now) }
{
    let name = class_name(
        &world.names,
        &world.classes,
        class_of(&world.heap, exception),
    );
    match message_of(&world.heap, exception) {
        None => Text::from_str(alloc, name),
        Some(message) => {
            let text = with_message(alloc, name, message)?;
            Text::from_str(alloc, text.as_str())
        }
    }
}

fn end_with(alloc: Global, told: Told, world: &World) -> Result<Ending, OutOfMemory>
    ensures { IfOk result (λ ending. ending ≡ spec.ending_of (answer_of told world.now)) }
{
    match told {
        Told::Got(_) => Ok(Ending::Value),
        Told::Threw(exception) => Ok(Ending::Uncaught(uncaught_text(alloc, exception, world)?)),
        Told::Stopped(why) => Ok(Ending::Stopped(why)),
    }
}

/// What is told of a run that ended so.
pub(crate) fn tell(alloc: Global, told: Told, world: World) -> Result<Report, OutOfMemory>
    ensures { IfOk result (λ report. report ≡ spec.report_of (answer_of told world)) }
{
    let ending = end_with(alloc, told, &world)?;
    let World { output, .. } = world;
    Ok(Report { output, ending })
}
