//! Why a program has no layout.
use std::alloc::{AllocError, AllocFailed};
use thiserror::Error;

/// Why a program has no layout.
#[derive(Clone, Copy, Debug, Error)]
pub enum LayoutStop {
    /// There are over 600 rows or 2,400 columns.
    #[error("too many rows or columns")]
    TooLarge {
        /// The rows, or 4,294,967,295 where they are more.
        rows: u32,
        /// The columns, or 4,294,967,295 where they are more.
        columns: u32,
    },
    /// No memory.
    #[error("out of memory")]
    Memory,
}

impl From<AllocError> for LayoutStop {
    ghost use Rattle.std.specs.Prelude.{◌≡◌};
    ghost use Rattle.dcx_unknowns.specs.declared.stop.LayoutStop.TheVariants.{Memory};

    ghost from_gives = { λ _ e. e ≡ Memory };

    fn from(_: AllocError) -> Self {
        LayoutStop::Memory
    }
}

impl<T: Drop> From<AllocFailed<T>> for LayoutStop {
    ghost use Rattle.std.specs.Prelude.{◌≡◌};
    ghost use Rattle.dcx_unknowns.specs.declared.stop.LayoutStop.TheVariants.{Memory};

    ghost from_gives = { λ _ e. e ≡ Memory };

    fn from(_: AllocFailed<T>) -> Self {
        LayoutStop::Memory
    }
}
