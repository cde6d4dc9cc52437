use gv_base::Place;
use gv_spelling::Quote;

/// A string that is open.
#[derive(Clone, Copy, Debug)]
pub struct OpenText {
    /// The quote that opened it.
    pub quote: Quote,
    pub start: Place,
    /// The place behind its last part, if it had one.
    pub behind: Option<Place>,
}

/// A string that is open around a `${ }` part.
#[derive(Clone, Copy, Debug)]
pub struct OpenPart {
    pub quote: Quote,
    pub start: Place,
    /// The place of the part's `$`.
    pub dollar: Place,
}

/// What is open around a place.
#[derive(Clone, Copy, Debug)]
pub enum Open {
    /// A `{`.
    Brace,
    Part(OpenPart),
}

/// Where a place is.
#[derive(Clone, Copy, Debug)]
pub enum Here {
    /// Between tokens.
    Between,
    /// In a string, outside its parts.
    Inside(OpenText),
}
