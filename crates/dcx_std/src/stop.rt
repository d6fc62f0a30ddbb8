//! Why rows have no scaled program.
use dcx_answer::Site;
use std::alloc::{AllocError, AllocFailed};
use thiserror::Error;

/// Why rows have no scaled program.
#[derive(Clone, Copy, Debug, Error)]
pub enum RowStop {
    /// An operation passes 128 bits, the first one.
    #[error("an operation passes 128 bits")]
    Wide(Site),
    /// There are over 600 rows or 2,400 columns.
    #[error("too many rows or columns")]
    TooLarge {
        /// The rows, or 4,294,967,295 where they are more.
        rows: u32,
        /// The columns, or 4,294,967,295 where they are more.
        columns: u32,
    },
    /// No memory.
    #[error("out of memory")]
    Memory,
}

impl From<AllocError> for RowStop {
    ghost use Rattle.std.specs.Prelude.{◌≡◌};
    ghost use Rattle.dcx_std.specs.declared.stop.RowStop.TheVariants.{Memory};

    ghost from_gives = { λ _ e. e ≡ Memory };

    fn from(_: AllocError) -> Self {
        RowStop::Memory
    }
}

impl<T: Drop> From<AllocFailed<T>> for RowStop {
    ghost use Rattle.std.specs.Prelude.{◌≡◌};
    ghost use Rattle.dcx_std.specs.declared.stop.RowStop.TheVariants.{Memory};

    ghost from_gives = { λ _ e. e ≡ Memory };

    fn from(_: AllocFailed<T>) -> Self {
        RowStop::Memory
    }
}
