//! The answer of a linear program.

use dcx_frac::{Frac, Fracs};
use dcx_math::List;

/// What a linear program turns out to be.
#[derive(Clone, Copy)]
pub enum LpStatus {
    /// It has a least cost.
    Optimal,
    /// No columns solve its rows.
    Infeasible,
    /// Its cost falls without end.
    Unbounded,
}

/// What is kept of a row.
#[derive(Clone, Copy)]
pub struct RowNote {
    /// The reduced cost of its slack, or of its artificial where it has none.
    pub reduced_cost: Frac,
    /// What the row of fractions was multiplied by to get this row.
    pub factor: Frac,
    /// Whether it was negated then.
    pub negated: bool,
}

/// What is kept of each row, seen by contracts as a list.
pub type RowNotes = List<RowNote>;

/// The answer of a linear program of whole numbers.
#[derive(Drop)]
pub struct LpAnswer {
    /// What the program turned out to be.
    pub status: LpStatus,
    /// The least cost, the gap by which the rows can't be solved, or the cost at `columns`.
    pub number: Frac,
    /// By how much the cost falls along the ray, where it falls without end; else 0.
    pub slope: Frac,
    /// The number of each column.
    pub columns: Fracs,
    /// What is kept of each row.
    pub rows: RowNotes,
    /// The change of each column along the ray, where the cost falls without end; else nothing.
    pub ray: Fracs,
}
