//! Sides of splits.
ghost use Rattle.dcx_branch.specs.Between.{HasRoom};

use crate::place::Place;

/// A side of a split that is taken: where an entry is at most the limit, or where it is at least the next integer.
#[derive(Clone, Copy)]
pub(crate) struct Side {
    /// The entry.
    pub place: Place,
    /// The limit.
    pub limit: i128,
    /// Whether it is the upper side.
    pub above: bool,
    pub ghost room: { HasRoom limit },
}
