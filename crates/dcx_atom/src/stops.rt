//! Why a value, or slopes, could not be formed.

use dcx_frac::{Frac, Passes};
use thiserror::Error;

/// Why a value was not formed.
#[derive(Clone, Copy, Debug, Error)]
pub enum ValueStop {
    /// An operation passes 128 bits, the first one of the value.
    #[error("an operation passes 128 bits")]
    Passes {
        /// The entry of the result that was being formed.
        entry: u32,
        /// The operation and its operands.
        passes: Passes,
    },
    /// A divisor is 0. No nonlinear call answers this.
    #[error("a divisor is 0")]
    ZeroDivisor {
        /// The entry of the result that was being formed.
        entry: u32,
    },
    /// No memory for the value.
    #[error("out of memory")]
    Memory,
}

/// Why slopes were not formed.
#[derive(Clone, Copy, Debug, Error)]
pub enum SlopeStop {
    /// The weights break a condition, the first one.
    #[error("the weights break a condition")]
    Refused {
        /// The entry of the result whose weights break it.
        entry: u32,
        /// The left side of the condition.
        stated: Frac,
        /// Its right side.
        found: Frac,
    },
    /// An operation passes 128 bits, the first one.
    #[error("an operation passes 128 bits")]
    Passes(Passes),
    /// No memory for the slopes.
    #[error("out of memory")]
    Memory,
}
