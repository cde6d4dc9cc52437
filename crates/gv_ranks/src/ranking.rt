//! Elements with their ranks.

ghost use Rattle.std.specs.Prelude.{◌≡◌, [], ◌∷◌, ◌++◌, length, map, IfOk, OnErr, OnOk, option_map};
ghost use Rattle.gv_ranks.specs.Ranks.{compared};
ghost use Rattle.gv_ranks.specs.Sorted as spec;

use crate::rank::{Rank, compared};
use gv_base::{OutOfMemory, Value};
use std::alloc::Global;
use std::cmp::Ordering;
use std::marker::Model;

/// An element with its rank.
#[derive(Debug, Drop)]
pub struct Ranked {
    pub rank: Rank,
    pub element: Value,
}

/// Elements with their ranks, in order. Contracts see their list.
#[derive(Debug, Drop)]
pub struct Ranking {
    ranked: Vec<Ranked>,
}

impl Model for Ranking {
    ghost use Rattle.std.specs.Prelude.{List};
    ghost use Rattle.gv_ranks.specs.declared.ranking.Ranked.{Ranked};

    ghost Value = { List Ranked };

    ghost view = { λ r. r.ranked.items };
}

impl Ranking {
    /// None.
    pub fn new(alloc: Global) -> Ranking
        ensures { result ≡ [] }
    {
        Ranking {
            ranked: Vec::new(alloc),
        }
    }

    /// Another one behind the others.
    pub fn push(&mut self, ranked: Ranked) -> Result<(), OutOfMemory>
        ensures { OnOk result (self.new ≡ self.old ++ ranked ∷ []) }
    {
        self.ranked.push(ranked)?;
        Ok(())
    }

    /// The elements in the order of their ranks; those that tie stay in their order.
    pub fn sorted(self, alloc: Global) -> Result<Vec<Value>, OutOfMemory>
        ensures { IfOk result (λ values. values.items ≡ spec.elements (spec.sorted spec.is_before self)) }
    {
        let mut ranked = self.ranked;
        put_in_order(&mut ranked)?;
        elements(alloc, &ranked)
    }

    /// The first element of the greatest rank, or of the smallest; none where there are no elements.
    pub fn extreme(self, greatest: bool) -> Option<Value>
        ensures { result ≡ option_map spec.element (spec.extreme greatest self) }
    {
        let mut ranked = self.ranked;
        let mut best = None;
        while let Some(first) = ranked.pop() {
            best = Some(of_two(greatest, first, best));
        }
        let best = best?;
        Some(best.element)
    }
}

/// How an element stands to another, by their ranks.
fn by_rank(first: &Ranked, second: &Ranked) -> Ordering
    ensures { result ≡ compared first.now.rank second.now.rank }
{
    compared(&first.rank, &second.rank)
}

fn put_in_order(ranked: &mut Vec<Ranked>) -> Result<(), OutOfMemory>
    ensures { OnOk result (ranked.new.items ≡ spec.sorted spec.is_before ranked.old.items) }
{
    ranked.sort_by(by_rank)?;
    Ok(())
}

fn elements(alloc: Global, ranked: &[Ranked]) -> Result<Vec<Value>, OutOfMemory>
    ensures { IfOk result (λ values. values.items ≡ spec.elements ranked.now) }
{
    let mut values = Vec::new(alloc);
    let mut at = 0;
    while at < ranked.len() {
        values.push(ranked[at].element)?;
        at += 1;
    }
    Ok(values)
}

/// The first of two, unless the one behind it is ahead of it.
fn of_two(greatest: bool, first: Ranked, behind: Option<Ranked>) -> Ranked
    ensures { result ≡ spec.of_two greatest first behind }
{
    match behind {
        Some(behind) if is_ahead(greatest, &behind, &first) => behind,
        _ => first,
    }
}

/// Whether an element is greater than another one, or smaller.
fn is_ahead(greatest: bool, ranked: &Ranked, other: &Ranked) -> bool
    ensures { result ≡ spec.is_ahead greatest ranked.now other.now }
{
    let order = by_rank(ranked, other);
    if greatest {
        order.is_gt()
    } else {
        order.is_lt()
    }
}
