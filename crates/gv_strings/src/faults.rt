/// Why a text can't be read at one of several places.
#[derive(Clone, Copy)]
pub(crate) enum Fault {
    /// An item is no number.
    NoNumber,
    /// A place isn't in the text.
    Outside(i64),
}
