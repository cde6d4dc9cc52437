ghost use Rattle.std.specs.Prelude.{◌≡◌, ◌<◌, ◌≤◌, ◌^◌, length, slice_get, Some};
ghost use Rattle.gv_heap.specs.Ranges.{range_size};
ghost use Rattle.gv_rows.specs.Values as spec;

use crate::places::from_end;
use crate::sequence::number_at;
use std::marker::Model;

/// The places that a range walks over the elements of a list or a text.
#[derive(Drop)]
pub struct Walk {
    first: i64,
    last: i64,
    count: u64,
}

impl Model for Walk {
    ghost use Rattle.std.specs.Prelude.{◌≤◌, ◌+◌, ◌-ℤ◌, ℤ, List, int_lt, unsigned_abs};
    ghost use Rattle.gv_rows.specs.Values.{numbers};

    ghost Value = { List ℤ };

    ghost view = { λ walk. numbers walk.count (int_lt walk.last walk.first) walk.first };

    ghost invariant = { λ walk. walk.count ≤ unsigned_abs (walk.last -ℤ walk.first) + 1 };
}

impl Walk {
    /// The places of a range over so many elements: an end that is negative counts from the end.
    pub fn new(size: usize, first: i64, last: i64, open_end: bool) -> Walk
        requires range { range_size first last open_end ≤ 2147483647 }
        requires size { size < 2 ^ 63 }
        ensures { result ≡ spec.walked size first last open_end }
    {
        let first = from_end(size, first);
        let last = from_end(size, last);
        let steps = last.abs_diff(first);
        let count = if open_end { steps } else { steps + 1 };
        Walk { first, last, count }
    }

    /// How many places there are.
    #[tactic(auto, using(crate::proofs::Numbers::length_numbers))]
    pub fn len(&self) -> u64
        ensures { result ≡ length self.now }
    {
        self.count
    }

    /// The place that comes after so many others. It is negative where it is before the start.
    #[tactic(auto, using(crate::proofs::Numbers::length_numbers, crate::proofs::Numbers::get_numbers))]
    pub fn get(&self, at: u64) -> i64
        requires { at < length self.now }
        ensures { slice_get self.now at ≡ Some result }
    {
        number_at(self.first, self.last, at)
    }
}
