//! What comes before what.

ghost use Rattle.std.specs.Prelude.{◌≡◌};
ghost use Rattle.gv_ranks.specs.Ranks as spec;

use gv_base::{Text, Value};
use gv_chars::compared as texts_compared;
use std::cmp::Ordering;

/// The place of a key in the order.
#[derive(Debug, Drop)]
pub enum Rank {
    Null,
    Number(i64),
    Text(Text),
    Truth(bool),
}

impl Rank {
    /// The rank of null, a number or a Boolean; any other key is ranked by its text.
    pub fn plain(key: Value) -> Option<Rank>
        ensures { result ≡ spec.plain key }
    {
        match key {
            Value::Null => Some(Rank::Null),
            Value::Bool(truth) => Some(Rank::Truth(truth)),
            Value::Int(number) => Some(Rank::Number(number.into())),
            Value::Long(number) => Some(Rank::Number(number)),
            Value::Class(_) | Value::Obj(_) => None,
        }
    }

    /// Where ranks of this kind stand among those of other kinds.
    fn place(&self) -> usize
        ensures { result ≡ spec.place self.now }
    {
        match self {
            Rank::Null => 0,
            Rank::Number(_) => 1,
            Rank::Text(_) => 2,
            Rank::Truth(_) => 3,
        }
    }
}

/// How a rank stands to another: null first, then numbers by their values, texts by their characters, or false before true.
pub fn compared(rank: &Rank, other: &Rank) -> Ordering
    ensures { result ≡ spec.compared rank.now other.now }
{
    match (rank, other) {
        (Rank::Number(number), Rank::Number(beside)) => number.cmp(beside),
        (Rank::Text(text), Rank::Text(beside)) => {
            texts_compared(text.as_str(), beside.as_str()).cmp(&0)
        }
        (Rank::Truth(truth), Rank::Truth(beside)) => truth.cmp(beside),
        _ => rank.place().cmp(&other.place()),
    }
}
