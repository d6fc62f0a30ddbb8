//! Why a slice, an index or a reshape has no places.

use thiserror::Error;

/// Why a slice, an index or a reshape has no places.
#[derive(Clone, Copy, Debug, Error)]
pub enum ShapeFault {
    /// More picks than sides, or shapes of different sizes.
    #[error("the shapes do not fit")]
    Clash,
    /// A whole number outside its side.
    #[error("an index is out of range")]
    Range,
    /// A slice without a place.
    #[error("a slice is empty")]
    Empty,
    /// No memory for the places.
    #[error("out of memory")]
    Memory,
}
