//! What a turn calls.

ghost use Rattle.std.specs.Prelude.{◌≡◌};
ghost use Rattle.gv_frames.specs.Turns as spec;

use gv_texts::Question;

/// What is called on a receiver. A name that begins with `#` is no method's: the machine does it itself.
#[derive(Clone, Copy, Debug, PartialEq, Eq)]
pub enum Called {
    /// A value that lies in another one is entered.
    Enter,
    /// The construction of an object of a class.
    New,
    /// A closure, while classes are open as categories.
    Use,
    /// The body of a method of a metaclass.
    Invoke,
    ToString,
    /// A closure.
    Call,
    AsBoolean,
    Equals,
    HashCode,
    Plus,
}

impl Called {
    /// Its name.
    pub fn name(self) -> &'static str
        ensures { result.now ≡ spec.called_name self }
    {
        match self {
            Called::Enter => "#enter",
            Called::New => "#new",
            Called::Use => "#use",
            Called::Invoke => "#invoke",
            Called::ToString => "toString",
            Called::Call => "call",
            Called::AsBoolean => "asBoolean",
            Called::Equals => "equals",
            Called::HashCode => "hashCode",
            Called::Plus => "plus",
        }
    }
}

/// What asks a question.
pub(crate) fn called_by(question: Question) -> Called
    ensures { result ≡ spec.called_by question }
{
    match question {
        Question::Enter => Called::Enter,
        Question::ToString => Called::ToString,
        Question::Call => Called::Call,
        Question::AsBoolean => Called::AsBoolean,
        Question::Equals(_) => Called::Equals,
        Question::HashCode => Called::HashCode,
    }
}
