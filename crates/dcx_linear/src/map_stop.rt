//! Why rows could not be put at a setting.
use dcx_frac::Passes;
use std::alloc::{AllocError, AllocFailed};
use thiserror::Error;

/// Why rows could not be put at a setting.
#[derive(Clone, Copy, Debug, Error)]
pub enum MapStop {
    /// An operation passes 128 bits, the first one.
    #[error("an operation passes 128 bits at row {row}")]
    Passes {
        /// The row, counted from 0; the number of rows for what is to be small.
        row: usize,
        /// The operation and its operands.
        passes: Passes,
    },
    /// No memory.
    #[error("out of memory")]
    Memory,
}

impl From<AllocError> for MapStop {
    ghost use Rattle.std.specs.Prelude.{◌≡◌};
    ghost use Rattle.dcx_linear.specs.declared.map_stop.MapStop.TheVariants.{Memory};

    ghost from_gives = { λ _ e. e ≡ Memory };

    fn from(_: AllocError) -> Self {
        MapStop::Memory
    }
}

impl<T: Drop> From<AllocFailed<T>> for MapStop {
    ghost use Rattle.std.specs.Prelude.{◌≡◌};
    ghost use Rattle.dcx_linear.specs.declared.map_stop.MapStop.TheVariants.{Memory};

    ghost from_gives = { λ _ e. e ≡ Memory };

    fn from(_: AllocFailed<T>) -> Self {
        MapStop::Memory
    }
}
