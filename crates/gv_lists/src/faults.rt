/// Why a list can't be read at one of several places.
#[derive(Clone, Copy)]
pub(crate) enum Fault {
    /// An item is no number.
    NoNumber,
    /// A place is before the start.
    Before(i64),
}
