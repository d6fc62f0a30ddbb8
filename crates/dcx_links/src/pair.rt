//! A walk along two rows at once.
ghost use Rattle.std.specs.Prelude.{◌≡◌, ℕ, ◌+◌, ◌-◌, ◌<◌, ◌≤◌, length, pos, None, Some, ◌⊎◌, IfSome, IfNone};
ghost use Rattle.std.specs.Iterator.{at_most};
ghost use Rattle.dcx_links.specs.Matrix.{number};
ghost use Rattle.dcx_links.specs.Walks.{IsOver, IsBefore, DoubleSteps};

use crate::walk::{Entry, RowWalk};
use std::marker::Model;

/// What two rows have in a column. One of the numbers isn't 0.
#[derive(Clone, Copy)]
pub struct Pair {
    /// The column.
    pub at: u32,
    /// The number of the first row.
    pub first: i128,
    /// The number of the second row.
    pub second: i128,
}

/// A walk along a row that has taken its next number already.
#[derive(Drop)]
pub(crate) struct Ahead<'a> {
    walk: RowWalk<'a>,
    next: Option<Entry>,
    from: usize,
}

impl<'a> Model for Ahead<'a> {
    ghost use Rattle.dcx_links.specs.Walks.{Walk, IsAhead};

    ghost Value = { Walk };

    ghost view = { λ a. record { numbers = a.walk.numbers; from = a.from } };

    ghost invariant = { λ a. IsAhead a.walk a.from a.next };
}

impl<'a> Ahead<'a> {
    /// The walk at its beginning.
    pub(crate) fn begin(mut walk: RowWalk<'a>) -> Ahead<'a>
        requires { walk.from ≡ 0 }
        ensures { result ≡ walk.entry }
    {
        let next = walk.next();
        Ahead {
            walk,
            next,
            from: 0,
        }
    }

    /// The next column with a number other than 0.
    fn place(&self) -> Option<u32>
        ensures some { IfSome result (λ at. IsBefore self.now at × (at < length self.now.numbers)) }
        ensures none { IfNone result (IsOver self.now) }
    {
        match self.next {
            Some(entry) => Some(entry.at),
            None => None,
        }
    }

    /// The number of a column before which nothing is left, and which the walk then passes.
    fn pass(&mut self, at: u32) -> i128
        requires { IsBefore self.old at }
        ensures number { result ≡ number self.old.numbers at }
        ensures passed { self.new ≡ record { numbers = self.old.numbers; from = at + 1 } }
    {
        self.from = at as usize + 1;
        match self.next {
            Some(entry) => {
                if entry.at == at {
                    self.next = self.walk.next();
                    entry.value
                } else {
                    0
                }
            }
            None => 0,
        }
    }
}

/// The lesser of two columns.
fn least(first: Option<u32>, second: Option<u32>) -> Option<u32>
    ensures one { IfSome result (λ at. (first ≡ Some at) ⊎ (second ≡ Some at)) }
    ensures first { IfSome result (λ at. IfSome first (λ k. at ≤ k)) }
    ensures second { IfSome result (λ at. IfSome second (λ k. at ≤ k)) }
    ensures none { IfNone result ((first ≡ None) × (second ≡ None)) }
{
    match (first, second) {
        (Some(a), Some(b)) => Some(if a <= b { a } else { b }),
        (Some(a), None) => Some(a),
        (None, b) => b,
    }
}

/// What two rows have in the columns where one of them has a number other than 0, by rising columns.
#[derive(Drop)]
pub struct PairWalk<'a> {
    pub(crate) first: Ahead<'a>,
    pub(crate) second: Ahead<'a>,
}

impl<'a> Model for PairWalk<'a> {
    ghost use Rattle.std.specs.Prelude.{◌≡◌, length};
    ghost use Rattle.dcx_links.specs.Walks.{DoubleWalk};

    ghost Value = { DoubleWalk };

    ghost view = { λ w. record { first = w.first.numbers; second = w.second.numbers; from = w.first.from } };

    ghost invariant = { λ w. (w.first.from ≡ w.second.from) × (length w.first.numbers ≡ length w.second.numbers) };
}

impl<'a> Iterator for PairWalk<'a> {
    type Item = Pair;

    ghost next_gives = { DoubleSteps };

    ghost remaining = { λ w. at_most (length w.first - w.from) };

    fn next(&mut self) -> Option<Pair> {
        let at = least(self.first.place(), self.second.place())?;
        let first = self.first.pass(at);
        let second = self.second.pass(at);
        Some(Pair { at, first, second })
    }
}
