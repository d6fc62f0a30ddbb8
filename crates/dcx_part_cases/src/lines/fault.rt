//! Why a line gives nothing that could be compared.
use std::alloc::{AllocError, AllocFailed};
use thiserror::Error;

/// Why a line gives nothing that could be compared.
#[derive(Clone, Copy, Debug, Error)]
pub(crate) enum CaseFault {
    /// It isn't written as the cases of its file are.
    #[error("no such case")]
    Unreadable,
    /// No memory.
    #[error("out of memory")]
    Memory,
}

impl From<AllocError> for CaseFault {
    ghost use Rattle.std.specs.Prelude.{◌≡◌};
    ghost use Rattle.dcx_part_cases.specs.declared.lines.fault.CaseFault.TheVariants.{Memory};

    ghost from_gives = { λ _ e. e ≡ Memory };

    fn from(_: AllocError) -> Self {
        CaseFault::Memory
    }
}

impl<T: Drop> From<AllocFailed<T>> for CaseFault {
    ghost use Rattle.std.specs.Prelude.{◌≡◌};
    ghost use Rattle.dcx_part_cases.specs.declared.lines.fault.CaseFault.TheVariants.{Memory};

    ghost from_gives = { λ _ e. e ≡ Memory };

    fn from(_: AllocFailed<T>) -> Self {
        CaseFault::Memory
    }
}
