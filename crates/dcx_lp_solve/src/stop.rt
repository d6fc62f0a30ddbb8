//! Why rows aren't solved.
ghost use Rattle.std.specs.Prelude.{◌≡◌};
ghost use Rattle.dcx_lp_solve.specs.Solved.{rows_stop};
ghost use Rattle.dcx_lp_solve.specs.Stops.{run_stop};

use dcx_answer::{Site, Stop};
use dcx_std::RowStop;
use std::alloc::AllocError;
use thiserror::Error;

/// Why rows aren't solved.
#[derive(Clone, Copy, Debug, Error)]
pub enum SolveStop {
    /// There are over 600 rows or 2,400 columns.
    #[error("the program has {rows} rows and {columns} columns")]
    TooLarge {
        /// The rows, or 4,294,967,295 where they are more.
        rows: u32,
        /// The columns, or 4,294,967,295 where they are more.
        columns: u32,
    },
    /// An operation passes 128 bits, the first one: at a row, while its numbers are made whole, or in a pivot.
    #[error("an operation passes 128 bits")]
    Wide(Site),
    /// The run needs more pivots than are allowed.
    #[error("{count} pivots are not enough")]
    PivotLimit {
        /// How many are allowed.
        count: u64,
    },
    /// No memory.
    #[error("out of memory")]
    Memory,
}

impl From<AllocError> for SolveStop {
    ghost use Rattle.std.specs.Prelude.{◌≡◌};
    ghost use Rattle.dcx_lp_solve.specs.declared.stop.SolveStop.TheVariants.{Memory};

    ghost from_gives = { λ _ e. e ≡ Memory };

    fn from(_: AllocError) -> Self {
        SolveStop::Memory
    }
}

/// The stop of rows that have no scaled program.
pub fn rows_stop(stop: RowStop) -> SolveStop
    ensures { result ≡ rows_stop stop }
{
    match stop {
        RowStop::TooLarge { rows, columns } => SolveStop::TooLarge { rows, columns },
        RowStop::Wide(site) => SolveStop::Wide(site),
        RowStop::Memory => SolveStop::Memory,
    }
}

/// The stop of a setting, of a node or of a step whose rows aren't solved.
pub fn run_stop(stop: SolveStop) -> Stop
    ensures { result ≡ run_stop stop }
{
    match stop {
        SolveStop::TooLarge { rows, columns } => Stop::TooLarge { rows, columns },
        SolveStop::Wide(site) => Stop::Wide(site),
        SolveStop::PivotLimit { count } => Stop::PivotLimit { count },
        SolveStop::Memory => Stop::Memory,
    }
}
