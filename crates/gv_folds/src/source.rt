//! What a fold hands to its closure.

ghost use Rattle.std.specs.Prelude.{◌≡◌, IfOk};
ghost use Rattle.gv_folds.specs.Sources as spec;

use gv_base::{OutOfMemory, Value};
use gv_code::Stack;
use gv_elements::Elements;
use gv_rows::integer_of;

/// What the turns are about.
#[derive(Debug, Drop)]
pub enum Source {
    Plain(Elements),
    /// Elements with their places, from this one on.
    Indexed {
        at: usize,
        elements: Elements,
    },
    /// Entries of a map, as they were at the start: by key and value, or as one object.
    Entries {
        takes_two: bool,
        entries: Stack<(Value, Value)>,
    },
}

/// What a turn is about.
#[derive(Clone, Copy, Debug, PartialEq, Eq)]
pub enum Handed {
    /// No turn was yet.
    Nothing,
    Element(Value),
    /// An entry by its key and value.
    Pair(Value, Value),
}

/// The arguments of the closure.
#[derive(Clone, Copy, Debug, PartialEq, Eq)]
pub enum Args {
    One(Value),
    Two(Value, Value),
}

/// The next turn of a source.
#[derive(Debug, Drop)]
pub enum Handing {
    /// There is none.
    NoMore,
    Hands {
        handed: Handed,
        args: Args,
        source: Source,
    },
    /// An entry is made for it.
    Makes {
        key: Value,
        value: Value,
        source: Source,
    },
}

/// The next turn.
pub fn next(source: Source) -> Result<Handing, OutOfMemory>
    ensures { IfOk result (λ next. next ≡ spec.next source) }
{
    match source {
        Source::Plain(elements) => Ok(plain(elements)),
        Source::Indexed { at, elements } => indexed(at, elements),
        Source::Entries {
            takes_two,
            mut entries,
        } => match entries.pop() {
            None => Ok(Handing::NoMore),
            Some((key, value)) => Ok(entry(takes_two, key, value, entries)),
        },
    }
}

fn plain(elements: Elements) -> Handing
    ensures { result ≡ spec.plain elements }
{
    match elements.next() {
        None => Handing::NoMore,
        Some((value, elements)) => Handing::Hands {
            handed: Handed::Element(value),
            args: Args::One(value),
            source: Source::Plain(elements),
        },
    }
}

fn indexed(at: usize, elements: Elements) -> Result<Handing, OutOfMemory>
    ensures { IfOk result (λ next. next ≡ spec.indexed at elements) }
{
    match elements.next() {
        None => Ok(Handing::NoMore),
        Some((value, elements)) => Ok(Handing::Hands {
            handed: Handed::Element(value),
            args: Args::Two(value, integer_of(at)),
            source: Source::Indexed {
                at: at.checked_add(1).ok_or(OutOfMemory)?,
                elements,
            },
        }),
    }
}

fn entry(takes_two: bool, key: Value, value: Value, entries: Stack<(Value, Value)>) -> Handing
    ensures { result ≡ spec.entry takes_two key value entries }
{
    let source = Source::Entries { takes_two, entries };
    if takes_two {
        Handing::Hands {
            handed: Handed::Pair(key, value),
            args: Args::Two(key, value),
            source,
        }
    } else {
        Handing::Makes { key, value, source }
    }
}
