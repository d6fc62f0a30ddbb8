//! Runs over both tableaus, compared.
ghost use Rattle.std.specs.Prelude.{◌≡◌, ◌<◌, ⊤, length, MatchOption};
ghost use Rattle.dcx_tab.specs.Pivot.{IsFirstWide};

use crate::told::{tell, tell_wide};
use anyhow::Result;
use dcx_chained::Chained;
use dcx_simplex::{LpEnd, solve};
use dcx_tab::{Dense, Program, Tableau, WideAt};
use std::alloc::AllocError;

/// Whether both tableaus have the same row `i`.
fn is_same_row<T: Tableau, U: Tableau>(one: &T, other: &U, i: u32) -> bool
    requires row { i < length (T.table one.now).rows }
    requires other_row { i < length (U.table other.now).rows }
    requires columns { (T.table one.now).columns ≡ (U.table other.now).columns }
{
    for j in 0..one.columns() + 3 {
        if one.entry(i, j) != other.entry(i, j) {
            return false;
        }
    }
    true
}

/// Whether both tableaus are of one size and have the same basis and entries.
fn is_same<T: Tableau, U: Tableau>(one: &T, other: &U) -> bool {
    let rows = one.rows();
    if rows != other.rows() || one.columns() != other.columns() || one.plain() != other.plain() {
        return false;
    }
    for i in 0..rows {
        if one.basis(i) != other.basis(i) {
            return false;
        }
    }
    for i in 0..rows + 2 {
        if !is_same_row(one, other, i) {
            return false;
        }
    }
    true
}

/// How a run with so many pivots at most ends over both tableaus; `None` where the runs differ.
fn end_of<T: Tableau, U: Tableau>(one: &mut T, other: &mut U, limit: u64) -> Option<LpEnd> {
    let end = solve(one, limit);
    if solve(other, limit) == end && is_same(one, other) {
        Some(end)
    } else {
        None
    }
}

/// The first number that a pivot would form beyond 128 bits; `None` where the pivot is done, or there is none at this place.
fn first_wide<T: Tableau>(tableau: &mut T, row: u32, column: u32) -> Option<WideAt>
    ensures { MatchOption result ⊤ (λ at. IsFirstWide row column (T.table tableau.old).rows at.row at.column) }
{
    if row >= tableau.rows() || column >= tableau.columns() {
        return None;
    }
    if tableau.entry(row, column) == 0 {
        return None;
    }
    match tableau.pivot(row, column) {
        Ok(()) => None,
        Err(at) => Some(at),
    }
}

/// The same over both tableaus; `None` where the places differ.
fn same_wide<T: Tableau, U: Tableau>(
    one: &mut T,
    other: &mut U,
    row: u32,
    column: u32,
) -> Option<WideAt> {
    let at = first_wide(one, row, column)?;
    let also = first_wide(other, row, column)?;
    if at.row == also.row && at.column == also.column {
        Some(at)
    } else {
        None
    }
}

/// Runs with so many pivots at most over two tableaus, and tells where the runs differ, or how they end where the limit isn't
/// met. Answers false where it is met.
fn is_told<T: Tableau + Drop, U: Tableau + Drop>(
    rt: &impl Print,
    name: &str,
    limit: u64,
    one: Result<T, AllocError>,
    other: Result<U, AllocError>,
) -> Result<bool> {
    let mut one = one?;
    let mut other = other?;
    match end_of(&mut one, &mut other, limit) {
        Some(LpEnd::PivotLimit { .. }) => return Ok(false),
        Some(
            LpEnd::Wide {
                pivots,
                row,
                column,
            },
        ) => {
            let at = same_wide(&mut one, &mut other, row, column);
            tell_wide(rt, name, pivots, row, column, at)?
        }
        Some(end) => tell(rt, name, &other, end)?,
        None => println!(rt; "{name}: differs under the limit {limit}")?,
    }
    Ok(true)
}

/// Runs the program over both tableaus under each limit of pivots, and tells the first limit under which the runs differ, or
/// how the runs end where the limit isn't met.
pub(crate) fn compare(
    rt: &(impl Print + AllocGlobal),
    name: &str,
    program: &Program,
) -> Result<()> {
    for limit in 0..1000u64 {
        let dense = Dense::build(rt.alloc(), program);
        let linked = Chained::build(rt.alloc(), program);
        if is_told(rt, name, limit, dense, linked)? {
            return Ok(());
        }
    }
    Ok(println!(rt; "{name}: more than 999 pivots")?)
}
