//! Why there is no plain array.
ghost use Rattle.std.specs.Prelude.{◌≡◌};
ghost use Rattle.dcx_array.specs.declared.fault.ArrayFault.TheVariants.{Wide, Memory};
ghost use Rattle.dcx_array.specs.Answers.{fault_of};

use dcx_frac::Passes;
use dcx_shape::ShapeFault;
use std::alloc::{AllocError, AllocFailed};
use thiserror::Error;

/// Why there is no plain array.
#[derive(Clone, Copy, Debug, Error)]
pub enum ArrayFault {
    /// The shapes don't fit, or there are more picks than sides.
    #[error("the shapes do not fit")]
    Clash,
    /// A divisor is 0.
    #[error("a divisor is 0")]
    ZeroDivisor,
    /// There would be more than 20,000 entries.
    #[error("there would be too many entries")]
    TooMany {
        /// How many, or 4,294,967,295 where there would be more.
        count: u32,
    },
    /// An operation passes 128 bits, the first one.
    #[error("a number passes 128 bits")]
    Wide(Passes),
    /// A whole number picks an entry outside its side.
    #[error("an index is out of range")]
    Range,
    /// There would be no entry.
    #[error("there would be no entry")]
    Empty,
    /// No memory for the array.
    #[error("out of memory")]
    Memory,
}

impl From<Passes> for ArrayFault {
    ghost from_gives = { λ passes e. e ≡ Wide passes };

    fn from(passes: Passes) -> ArrayFault {
        ArrayFault::Wide(passes)
    }
}

impl From<ShapeFault> for ArrayFault {
    ghost from_gives = { λ fault e. e ≡ fault_of fault };

    fn from(fault: ShapeFault) -> ArrayFault {
        match fault {
            ShapeFault::Clash => ArrayFault::Clash,
            ShapeFault::Range => ArrayFault::Range,
            ShapeFault::Empty => ArrayFault::Empty,
            ShapeFault::Memory => ArrayFault::Memory,
        }
    }
}

impl From<AllocError> for ArrayFault {
    ghost from_gives = { λ _ e. e ≡ Memory };

    fn from(_e: AllocError) -> ArrayFault {
        ArrayFault::Memory
    }
}

impl<T: Drop> From<AllocFailed<T>> for ArrayFault {
    ghost from_gives = { λ _ e. e ≡ Memory };

    fn from(_e: AllocFailed<T>) -> ArrayFault {
        ArrayFault::Memory
    }
}
