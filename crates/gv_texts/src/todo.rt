//! What a walk has still to say.

ghost use Rattle.std.specs.Prelude.{◌≡◌, suc, IfOk};
ghost use Rattle.gv_texts.specs.Todo.{level_of, inner, mark_text};

use gv_base::{ObjId, OutOfMemory, Text, Value};

/// What stands around and between values.
#[derive(Clone, Copy, Debug, PartialEq, Eq)]
pub enum Mark {
    /// `[`
    Open,
    /// `]`
    Close,
    /// `[]`
    NoElements,
    /// `[:]`
    NoEntries,
    /// A comma and a blank.
    Comma,
    Colon,
    /// `=`
    Equals,
}

impl Mark {
    pub(crate) fn text(self) -> &'static str
        ensures { result.now ≡ mark_text self }
    {
        match self {
            Mark::Open => "[",
            Mark::Close => "]",
            Mark::NoElements => "[]",
            Mark::NoEntries => "[:]",
            Mark::Comma => ", ",
            Mark::Colon => ":",
            Mark::Equals => "=",
        }
    }
}

/// A thing that is still to say.
#[derive(Debug, Drop)]
pub enum Todo {
    Mark(Mark),
    /// The fixed text of a string with parts.
    Piece(Text),
    /// The text of a value; so many entries may lie in each other in it.
    Inner { level: usize, value: Value },
    /// The text of what a closure answers.
    Lazy(ObjId),
    /// Nothing; here a value ends that was entered.
    Leave,
}

/// What a walk waits for.
#[derive(Clone, Copy, Debug, PartialEq, Eq)]
pub enum Pending {
    /// A value, whose text is said next.
    Answer,
    /// That the object may be entered.
    Entry(ObjId),
}

/// A value by itself.
pub(crate) fn inner(value: Value) -> Result<Todo, OutOfMemory>
    ensures { IfOk result (λ todo. todo ≡ inner value) }
{
    Ok(Todo::Inner {
        level: level_of(value)?,
        value,
    })
}

/// One more than the number of an object: entries lie in entries that are made before them.
fn level_of(value: Value) -> Result<usize, OutOfMemory>
    ensures { IfOk result (λ level. level ≡ level_of value) }
{
    match value {
        Value::Obj(id) => id.checked_add(1).ok_or(OutOfMemory),
        _ => Ok(0),
    }
}
