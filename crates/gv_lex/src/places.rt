//! Places, and the first of some refusals.

ghost use Rattle.std.specs.Prelude.{◌≡◌, ◌<◌, ◌≤◌, ◌+◌, ◌==◌, length, slice_index};
ghost use Rattle.gv_lex.specs.Places as spec;
ghost use Rattle.gv_lex.specs.Steps.{HasRoom};

use gv_base::{Place, Refusal};

/// The first place of a file.
pub fn file_start(file: u8) -> Place
    ensures { result ≡ spec.file_start file }
{
    Place {
        file,
        line: 1,
        column: 1,
    }
}

pub fn next_column(place: Place) -> Place
    requires { place.column + 1 < 4294967296 }
    ensures { result ≡ spec.next_column place }
{
    Place {
        column: place.column + 1,
        ..place
    }
}

/// The place behind some characters.
pub fn past(place: Place, text: &[char]) -> Place
    requires { HasRoom place (length text.now) }
    ensures value { result ≡ spec.past place text.now }
    ensures line { result.line ≤ place.line + length text.now }
    ensures column { result.column ≤ place.column + length text.now }
{
    let mut here = place;
    let mut rest = text;
    'characters: while let [c, more @ ..] = rest {
        here = past_one(here, *c, begins_with_line_feed(more));
        rest = more;
    }
    here
}

fn begins_with_line_feed(text: &[char]) -> bool
    ensures { result ≡ (slice_index text.now 0 == 10) }
{
    match text.first() {
        Some(c) => *c == '\n',
        None => false,
    }
}

/// The place behind a character, before LF or not.
fn past_one(place: Place, c: char, before_line_feed: bool) -> Place
    requires { HasRoom place 1 }
    ensures { result ≡ spec.past_one place c before_line_feed }
{
    if c == '\n' || c == '\r' && !before_line_feed {
        Place {
            line: place.line + 1,
            column: 1,
            ..place
        }
    } else if c == '\r' {
        place
    } else {
        next_column(place)
    }
}

fn is_before(a: Refusal, b: Refusal) -> bool
    ensures { result ≡ spec.is_before a b }
{
    a.place.line < b.place.line
        || (a.place.line == b.place.line
            && (a.place.column < b.place.column
                || (a.place.column == b.place.column && a.kind.number() < b.kind.number())))
}

/// The earlier one.
pub fn earlier(first: Option<Refusal>, next: Option<Refusal>) -> Option<Refusal>
    ensures { result ≡ spec.earlier first next }
{
    match (first, next) {
        (Some(a), Some(b)) => Some(if is_before(b, a) { b } else { a }),
        (Some(a), None) => Some(a),
        (None, next) => next,
    }
}
