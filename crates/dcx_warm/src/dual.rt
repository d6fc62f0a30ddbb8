//! The dual simplex: right sides below 0 are put right while no cost is positive.
ghost use Rattle.std.specs.Prelude.{ℕ, ◌+◌, ◌<◌, length, IsTrue, ◌↔◌, IfSome, IfNone};
ghost use Rattle.std.specs.Bool.{OnTrue, OnFalse};
ghost use Rattle.dcx_warm.specs.Install.{IsSound};
ghost use Rattle.dcx_warm.specs.Dual.{IsShort, IsLeaving, MayEnter, ComesFirst, IsEntering, Repairs, NeverRepairs, IsBestRow, IsBestColumn};

use crate::step::step;
use dcx_frac::compare;
use dcx_tab::Tableau;
use std::cmp::Ordering;

/// Whether row `i` has a right side below 0.
fn is_short<T: Tableau>(tableau: &T, i: u32) -> bool
    requires { i + 2 < length (T.table tableau.now).rows }
    ensures { IsTrue result ↔ IsShort (T.table tableau.now) i }
{
    tableau.entry(i, tableau.columns() + 2) < 0
}

/// The better of the best row so far and row `i`.
fn better_row<T: Tableau>(tableau: &T, best: Option<u32>, i: u32) -> Option<u32>
    requires row { i + 2 < length (T.table tableau.now).rows }
    requires best { IsBestRow (T.table tableau.now) i best }
    ensures { IsBestRow (T.table tableau.now) (i + 1) result }
{
    if !is_short(tableau, i) {
        return best;
    }
    match best {
        None => Some(i),
        Some(r) => {
            if tableau.basis(r) <= tableau.basis(i) {
                Some(r)
            } else {
                Some(i)
            }
        }
    }
}

/// The row that leaves.
fn leaving<T: Tableau>(tableau: &T) -> Option<u32>
    ensures found { IfSome result (λ r. IsLeaving (T.table tableau.now) r) }
    ensures none { IfNone result ((i : ℕ) → ¬ (IsShort (T.table tableau.now) i)) }
{
    let mut best = None;
    'rows: for i in 0..tableau.rows() {
        best = better_row(tableau, best, i);
    }
    best
}

/// Whether column `c` comes before column `k`, where row `row` leaves.
fn comes_first<T: Tableau>(tableau: &T, row: u32, c: u32, k: u32) -> bool
    requires row { row + 2 < length (T.table tableau.now).rows }
    requires order { c < k }
    requires below { k < (T.table tableau.now).columns }
    requires left { MayEnter (T.table tableau.now) row c }
    requires right { MayEnter (T.table tableau.now) row k }
    ensures yes { OnTrue result (ComesFirst (T.table tableau.now) row c k) }
    ensures no { OnFalse result (ComesFirst (T.table tableau.now) row k c) }
{
    let cost = tableau.rows();
    match compare(
        tableau.entry(cost, c).unsigned_abs(),
        tableau.entry(row, c).unsigned_abs(),
        tableau.entry(cost, k).unsigned_abs(),
        tableau.entry(row, k).unsigned_abs(),
    ) {
        Ordering::Less => true,
        Ordering::Equal => true,
        Ordering::Greater => false,
    }
}

/// The better of the best column so far and column `c`.
fn better_column<T: Tableau>(tableau: &T, row: u32, best: Option<u32>, c: u32) -> Option<u32>
    requires row { row + 2 < length (T.table tableau.now).rows }
    requires column { c < (T.table tableau.now).plain }
    requires best { IsBestColumn (T.table tableau.now) row c best }
    ensures { IsBestColumn (T.table tableau.now) row (c + 1) result }
{
    if tableau.entry(row, c) >= 0 {
        return best;
    }
    match best {
        None => Some(c),
        Some(k) => {
            if comes_first(tableau, row, k, c) {
                Some(k)
            } else {
                Some(c)
            }
        }
    }
}

/// The column that enters where `row` leaves.
fn entering<T: Tableau>(tableau: &T, row: u32) -> Option<u32>
    requires { row + 2 < length (T.table tableau.now).rows }
    ensures found { IfSome result (λ c. IsEntering (T.table tableau.now) row c) }
    ensures none { IfNone result ((c : ℕ) → ¬ (MayEnter (T.table tableau.now) row c)) }
{
    let mut best = None;
    'columns: for c in 0..tableau.plain() {
        best = better_column(tableau, row, best, c);
    }
    best
}

/// Pivots until no right side is below 0, and tells whether it could.
pub(crate) fn repair<T: Tableau>(tableau: &mut T, limit: u64, pivots: &mut u64) -> bool
    requires { IsSound (T.table tableau.old) }
    ensures repairs { OnTrue result (Repairs limit (T.table tableau.new) pivots.new (T.table tableau.old) pivots.old) }
    ensures none { OnFalse result (NeverRepairs limit (T.table tableau.old) pivots.old) }
{
    'pivots: loop {
        let Some(row) = leaving(tableau) else {
            return true;
        };
        let Some(column) = entering(tableau, row) else {
            return false;
        };
        if !step(tableau, row, column, limit, pivots) {
            return false;
        }
    }
}
