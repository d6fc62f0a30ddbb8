//! A linear program of integers, in the form from which the simplex starts.
ghost use Rattle.dcx_tab.specs.Program.{IsProgram};

use crate::lists::{ColumnKinds, IntRows};
use crate::rows::CostRow;

/// Columns of at least 0, rows that they solve, and the cost to be made least.
#[derive(Drop)]
pub struct Program {
    /// The rows.
    pub rows: IntRows,
    /// The columns: those of the unknowns, the slacks, the artificials.
    pub columns: ColumnKinds,
    /// The cost z, to be made least.
    pub objective: CostRow,
    /// The sum w of the artificials, to be made 0.
    pub phase: CostRow,
    pub ghost form: { IsProgram rows columns objective phase },
}
