//! Why the multipliers of rows are not formed.
use dcx_frac::Passes;
use std::alloc::{AllocError, AllocFailed};
use thiserror::Error;

/// Why the multipliers of rows are not formed.
#[derive(Clone, Copy, Debug, Error)]
pub enum MultiplierStop {
    /// The multiplier of a row passes 128 bits, the first one.
    #[error("a multiplier passes 128 bits")]
    Wide {
        /// The row, counted from 0.
        row: u32,
        /// The operation and its operands.
        passes: Passes,
    },
    /// No memory.
    #[error("out of memory")]
    Memory,
}

impl From<AllocError> for MultiplierStop {
    ghost use Rattle.std.specs.Prelude.{◌≡◌};
    ghost use Rattle.dcx_lp_answer.specs.declared.stop.MultiplierStop.TheVariants.{Memory};

    ghost from_gives = { λ _ e. e ≡ Memory };

    fn from(_: AllocError) -> Self {
        MultiplierStop::Memory
    }
}

impl<T: Drop> From<AllocFailed<T>> for MultiplierStop {
    ghost use Rattle.std.specs.Prelude.{◌≡◌};
    ghost use Rattle.dcx_lp_answer.specs.declared.stop.MultiplierStop.TheVariants.{Memory};

    ghost from_gives = { λ _ e. e ≡ Memory };

    fn from(_: AllocFailed<T>) -> Self {
        MultiplierStop::Memory
    }
}
