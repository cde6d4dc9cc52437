//! What walks ask.

ghost use Rattle.std.specs.Prelude.{◌≡◌};
ghost use Rattle.gv_texts.specs.Questions.{argument_of, question_name};

use gv_base::Value;

/// What a walk asks of a value.
#[derive(Clone, Copy, Debug, PartialEq, Eq)]
pub enum Question {
    /// Whether it may be entered.
    Enter,
    /// What a script says its text is.
    ToString,
    /// What a closure answers.
    Call,
    /// Whether a script says that it is true.
    AsBoolean,
    /// Whether a script says that it equals another value.
    Equals(Value),
    /// What a script says its hash is.
    HashCode,
}

impl Question {
    /// The name of the call that asks so.
    pub fn name(self) -> &'static str
        ensures { result.now ≡ question_name self }
    {
        match self {
            Question::Enter => "#enter",
            Question::ToString => "toString",
            Question::Call => "call",
            Question::AsBoolean => "asBoolean",
            Question::Equals(_) => "equals",
            Question::HashCode => "hashCode",
        }
    }

    /// The argument of that call, where it has one.
    pub fn argument(self) -> Option<Value>
        ensures { result ≡ argument_of self }
    {
        match self {
            Question::Equals(value) => Some(value),
            _ => None,
        }
    }
}
