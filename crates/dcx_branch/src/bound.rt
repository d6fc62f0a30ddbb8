//! Bounds of a box, one by one.
use crate::place::Place;

/// A bound of an entry.
#[derive(Clone, Copy)]
pub struct BoundAt {
    /// The entry.
    pub place: Place,
    /// Whether the entry is at most the limit, or at least.
    pub upper: bool,
    /// The limit.
    pub limit: i128,
}
