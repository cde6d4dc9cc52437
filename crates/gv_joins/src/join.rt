//! A method between two turns.

ghost use Rattle.std.specs.Prelude.{◌≡◌};
ghost use Rattle.gv_joins.specs.Joins.{inside_of};

use gv_base::{ObjId, Text, Value};
use gv_code::Stack;
use gv_elements::Elements;
use gv_texts::{Question, TextWalk};

/// A method that has asked.
#[derive(Debug, Drop)]
pub enum Join {
    /// A sum, with the elements that are still to be added.
    Sum(Elements),
    Text(Joining),
    Flat(Flattening),
}

/// A `join` that waits for the text of an element.
#[derive(Debug, Drop)]
pub struct Joining {
    pub separator: Text,
    /// What was said before that element's text.
    pub text: Text,
    /// The elements behind it.
    pub source: Elements,
    /// The walk of its text.
    pub walk: TextWalk,
}

/// A `flatten` that waits to enter a list or a range.
#[derive(Debug, Drop)]
pub struct Flattening {
    /// The number of the one that it asks to enter.
    pub id: ObjId,
    /// What is still to do.
    pub todo: Stack<Todo>,
    /// The elements so far, the last one first.
    pub values: Stack<Value>,
    /// How many values that lie in others are entered, with the one that it asks to enter.
    pub inside: usize,
}

/// A thing that `flatten` has still to do.
#[derive(Clone, Copy, Debug, PartialEq, Eq)]
pub enum Todo {
    /// A value; where it is a list or a range, its elements.
    Inner(Value),
    /// Nothing; here a value ends that was entered.
    Leave,
}

/// What a turn comes to, before anything is made.
#[derive(Debug, Drop)]
pub(crate) enum Outcome {
    /// A value is asked `plus` of another one.
    Adds {
        join: Join,
        receiver: Value,
        argument: Value,
    },
    /// A value is asked.
    Asks {
        join: Join,
        receiver: Value,
        question: Question,
    },
    /// The method answers.
    Answers(Value),
    /// It answers a new String.
    MakesText(Text),
    /// It answers a new list of these, the last one first.
    MakesList(Stack<Value>),
}

impl Join {
    /// How many values that lie in others the method is in; none for a sum.
    pub fn inside(&self) -> usize
        ensures { result ≡ inside_of self.now }
    {
        match self {
            Join::Sum(_) => 0,
            Join::Text(joining) => joining.walk.inside,
            Join::Flat(flat) => flat.inside,
        }
    }
}
