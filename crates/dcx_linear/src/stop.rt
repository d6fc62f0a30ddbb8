//! Why a coefficient could not be formed.
use dcx_frac::Passes;
use std::alloc::{AllocError, AllocFailed};
use thiserror::Error;

/// Why a coefficient, or a form, was not formed.
#[derive(Clone, Copy, Debug, Error)]
pub enum CoefStop {
    /// An operation passes 128 bits, the first one.
    #[error("an operation passes 128 bits")]
    Passes(Passes),
    /// No memory.
    #[error("out of memory")]
    Memory,
}

impl From<Passes> for CoefStop {
    ghost use Rattle.std.specs.Prelude.{◌≡◌};
    ghost use Rattle.dcx_linear.specs.declared.stop.CoefStop.TheVariants as stops;

    ghost from_gives = { λ p e. e ≡ stops.Passes p };

    fn from(passes: Passes) -> Self {
        CoefStop::Passes(passes)
    }
}

impl From<AllocError> for CoefStop {
    ghost use Rattle.std.specs.Prelude.{◌≡◌};
    ghost use Rattle.dcx_linear.specs.declared.stop.CoefStop.TheVariants.{Memory};

    ghost from_gives = { λ _ e. e ≡ Memory };

    fn from(_: AllocError) -> Self {
        CoefStop::Memory
    }
}

impl<T: Drop> From<AllocFailed<T>> for CoefStop {
    ghost use Rattle.std.specs.Prelude.{◌≡◌};
    ghost use Rattle.dcx_linear.specs.declared.stop.CoefStop.TheVariants.{Memory};

    ghost from_gives = { λ _ e. e ≡ Memory };

    fn from(_: AllocFailed<T>) -> Self {
        CoefStop::Memory
    }
}
