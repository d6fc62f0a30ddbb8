//! Why a parameter's range isn't told.
use crate::site::Site;
use dcx_frac::Passes;
use std::alloc::{AllocError, AllocFailed};
use thiserror::Error;

/// Why a parameter's range isn't told.
#[derive(Clone, Copy, Debug, Error)]
pub enum RangeStop {
    /// An operation of the run at the setting passes 128 bits, the first one: at a row, while its numbers are made whole, or in a
    /// pivot.
    #[error("an operation of the run passes 128 bits")]
    Wide(Site),
    /// The run at the setting needs more pivots than are allowed.
    #[error("{count} pivots are not enough")]
    PivotLimit {
        /// How many are allowed.
        count: u64,
    },
    /// An operation of the range passes 128 bits, the first one.
    #[error("an operation of the range passes 128 bits")]
    RangeWide(Passes),
    /// No memory.
    #[error("out of memory")]
    Memory,
}

impl From<AllocError> for RangeStop {
    ghost use Rattle.std.specs.Prelude.{◌≡◌};
    ghost use Rattle.dcx_answer.specs.declared.range_stop.RangeStop.TheVariants.{Memory};

    ghost from_gives = { λ _ e. e ≡ Memory };

    fn from(_: AllocError) -> Self {
        RangeStop::Memory
    }
}

impl<T: Drop> From<AllocFailed<T>> for RangeStop {
    ghost use Rattle.std.specs.Prelude.{◌≡◌};
    ghost use Rattle.dcx_answer.specs.declared.range_stop.RangeStop.TheVariants.{Memory};

    ghost from_gives = { λ _ e. e ≡ Memory };

    fn from(_: AllocFailed<T>) -> Self {
        RangeStop::Memory
    }
}
