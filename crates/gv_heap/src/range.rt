ghost use Rattle.std.specs.Prelude.{◌≡◌};

use std::marker::Model;

/// The numbers from `first` to `last`, up or down, without `last` where the end is open; as Longs or as Integers.
/// There are at most 2147483647 of them.
#[derive(Debug, Drop)]
pub struct Range {
    first: i64,
    last: i64,
    open_end: bool,
    long: bool,
}

impl Model for Range {
    ghost use Rattle.gv_heap.specs.Ranges.{RangeState, IsRange};

    ghost Value = { RangeState };

    ghost view = { λ r. record { first = r.first; last = r.last; open_end = r.open_end; long = r.long } };

    ghost invariant = { λ r. IsRange r.first r.last r.open_end r.long };
}

impl Range {
    ghost use Rattle.gv_heap.specs.Ranges.{IsRange};

    pub(crate) fn new(first: i64, last: i64, open_end: bool, long: bool) -> Range
        requires { IsRange first last open_end long }
        ensures { result ≡ record { first = first; last = last; open_end = open_end; long = long } }
    {
        Range {
            first,
            last,
            open_end,
            long,
        }
    }

    /// The first and the last number.
    pub fn ends(&self) -> (i64, i64)
        ensures ends { result ≡ (self.now.first, self.now.last) }
        ensures can_be { IsRange self.now.first self.now.last self.now.open_end self.now.long }
    {
        (self.first, self.last)
    }

    /// Whether the last number is left out.
    pub fn open_end(&self) -> bool
        ensures { result ≡ self.now.open_end }
    {
        self.open_end
    }

    /// Whether the numbers are Longs.
    pub fn long(&self) -> bool
        ensures { result ≡ self.now.long }
    {
        self.long
    }
}
