//! The line that tells how a run ends.

use anyhow::{Context, Result};
use dcx_frac::Frac;
use dcx_simplex::LpEnd;
use dcx_tab::{Tableau, WideAt};

/// Tells how a run ends, and the least cost where it found one.
pub(crate) fn tell<T: Tableau>(rt: &impl Print, name: &str, tableau: &T, end: LpEnd) -> Result<()> {
    let LpEnd::Optimal { pivots } = end else {
        println!(rt; "{name}: {end:?}")?;
        return Ok(());
    };
    let cost = tableau.rows();
    let columns = tableau.columns();
    let number = Frac::of(
        tableau.entry(cost, columns + 2),
        tableau.entry(cost, columns),
    )
    .context("no least cost")?;
    let num = number.num();
    let den = number.den();
    println!(rt; "{name}: optimal after {pivots} pivots at {num}/{den}")?;
    Ok(())
}

/// Tells which pivot a run ends before, and the first number that it would form beyond 128 bits.
pub(crate) fn tell_wide(
    rt: &impl Print,
    name: &str,
    pivots: u64,
    row: u32,
    column: u32,
    at: Option<WideAt>,
) -> Result<()> {
    let at = at.context("two first wide places")?;
    let (wide_row, wide_column) = (at.row, at.column);
    println!(rt;
        "{name}: wide after {pivots} pivots, at row {row} column {column} first in row {wide_row} column {wide_column}"
    )?;
    Ok(())
}
