//! Entering lists, ranges, maps and strings with parts.

ghost use Rattle.std.specs.Prelude.{◌≡◌, [], IfOk, OnOk};
ghost use Rattle.gv_heap.specs.Heap.{object_at};
ghost use Rattle.gv_texts.specs.Todo as spec;
ghost use Rattle.gv_texts.specs.Texts.{root};

use crate::todo::{Mark, Todo, inner};
use gv_base::{ObjId, OutOfMemory, Text, Value};
use gv_code::Stack;
use gv_heap::{Entries, Heap, Object, Part, Slot};
use gv_rows::Sequence;
use std::alloc::Global;

/// Puts what a value says before nothing else is said.
pub(crate) fn put_root(
    alloc: Global,
    heap: &Heap,
    value: Value,
    todo: &mut Stack<Todo>,
) -> Result<(), OutOfMemory>
    requires { todo.old ≡ [] }
    ensures { OnOk result (todo.new ≡ root heap.now value) }
{
    match value {
        Value::Obj(id) => match heap.get(id) {
            Some(Object::GString(_) | Object::List(_) | Object::Map(_) | Object::Range(_)) => {
                put_opened(alloc, heap, id, todo)
            }
            _ => Ok(todo.push(inner(value)?)?),
        },
        _ => Ok(todo.push(inner(value)?)?),
    }
}

/// Puts what an object that is entered says.
pub(crate) fn put_opened(
    alloc: Global,
    heap: &Heap,
    id: ObjId,
    todo: &mut Stack<Todo>,
) -> Result<(), OutOfMemory>
    ensures { OnOk result (todo.new ≡ spec.opened (object_at heap.now id) todo.old) }
{
    match heap.get(id) {
        Some(Object::List(_) | Object::Range(_)) => put_elements(&Sequence::at(heap, id), todo),
        Some(Object::Map(entries)) => put_entries(entries, todo),
        Some(Object::GString(parts)) => put_parts(alloc, parts.as_slice(), todo),
        _ => Ok(()),
    }
}

fn put_elements(sequence: &Sequence, todo: &mut Stack<Todo>) -> Result<(), OutOfMemory>
    ensures { OnOk result (todo.new ≡ spec.elements sequence.now todo.old) }
{
    let mut at = sequence.len();
    if at == 0 {
        todo.push(Todo::Mark(Mark::NoElements))?;
        return Ok(());
    }
    todo.push(Todo::Mark(Mark::Close))?;
    while at > 1 {
        at -= 1;
        todo.push(inner(sequence.get(at))?)?;
        todo.push(Todo::Mark(Mark::Comma))?;
    }
    todo.push(inner(sequence.get(0))?)?;
    todo.push(Todo::Mark(Mark::Open))?;
    Ok(())
}

fn put_entries(entries: &Entries, todo: &mut Stack<Todo>) -> Result<(), OutOfMemory>
    ensures { OnOk result (todo.new ≡ spec.entries entries.now todo.old) }
{
    let mut at = entries.len();
    if at == 0 {
        todo.push(Todo::Mark(Mark::NoEntries))?;
        return Ok(());
    }
    todo.push(Todo::Mark(Mark::Close))?;
    while at > 1 {
        at -= 1;
        put_entry(entries.at(at).1, todo)?;
        todo.push(Todo::Mark(Mark::Comma))?;
    }
    put_entry(entries.at(0).1, todo)?;
    todo.push(Todo::Mark(Mark::Open))?;
    Ok(())
}

fn put_entry(slot: Slot, todo: &mut Stack<Todo>) -> Result<(), OutOfMemory>
    ensures { OnOk result (todo.new ≡ spec.entry slot todo.old) }
{
    todo.push(inner(slot.value)?)?;
    todo.push(Todo::Mark(Mark::Colon))?;
    todo.push(inner(slot.shown)?)?;
    Ok(())
}

fn put_parts(alloc: Global, parts: &[Part], todo: &mut Stack<Todo>) -> Result<(), OutOfMemory>
    ensures { OnOk result (todo.new ≡ spec.parts parts.now todo.old) }
{
    let mut at = parts.len();
    while at > 0 {
        at -= 1;
        todo.push(part_todo(alloc, &parts[at])?)?;
    }
    Ok(())
}

fn part_todo(alloc: Global, part: &Part) -> Result<Todo, OutOfMemory>
    ensures { IfOk result (λ todo. todo ≡ spec.part_todo part.now) }
{
    match part {
        Part::Piece(text) => Ok(Todo::Piece(Text::from_str(alloc, text.as_str())?)),
        Part::Value(value) => inner(*value),
        Part::Lazy(closure) => Ok(Todo::Lazy(*closure)),
    }
}
