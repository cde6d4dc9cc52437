ghost use Rattle.std.specs.Prelude.{◌≡◌, None, Some, string_bytes};
ghost use Rattle.std.specs.Prelude.{option_copied};

use gv_base::{ExceptionKind, Value};
use std::marker::Model;

/// The message of an exception, if it has one. Contracts see its bytes.
#[derive(Debug, Drop)]
pub struct Message {
    text: Option<String>,
}

impl Model for Message {
    ghost use Rattle.std.specs.Prelude.{List, ℕ, Option, option_map, string_bytes};

    ghost Value = { Option (List ℕ) };

    ghost view = { λ m. option_map string_bytes m.text };
}

impl Message {
    /// No message.
    pub fn none() -> Message
        ensures { result ≡ None }
    {
        Message { text: None }
    }

    /// A text.
    pub fn new(text: String) -> Message
        ensures { result ≡ Some (string_bytes text) }
    {
        Message { text: Some(text) }
    }

    /// The text, if there is one.
    pub fn text(&self) -> Option<&str>
        ensures { option_copied result ≡ self.now }
    {
        self.text.as_deref()
    }
}

/// How a built-in method that calls no script code ends.
#[derive(Debug, Drop)]
pub enum Done {
    Value(Value),
    Thrown(ExceptionKind, Message),
    /// Its price exceeds the cells left.
    CellsSpent,
    OutOfMemory,
}
