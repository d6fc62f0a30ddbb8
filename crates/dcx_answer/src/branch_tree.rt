//! Trees that show what whole points there are, as they are handed out.

use crate::duals::Duals;
use dcx_frac::Frac;
use dcx_math::List;

/// The multiplier of a bound of an entry.
#[derive(Clone, Copy)]
pub struct BoundWeight {
    /// The variable, by position in order of declaration.
    pub variable: u32,
    /// The entry, in row-major order.
    pub entry: u32,
    /// Whether the bound is the upper one, or the lower one.
    pub upper: bool,
    /// The multiplier.
    pub weight: Frac,
}

/// Multipliers of bounds, seen by contracts as a list.
pub type BoundWeights = List<BoundWeight>;

/// A node of a tree.
#[derive(Drop)]
pub enum BranchNode {
    /// A leaf: the multipliers show that no point of its box has a small objective.
    Bound {
        /// The multipliers of each constraint.
        duals: Duals,
        /// Those of the bounds of its box.
        bounds: BoundWeights,
    },
    /// A leaf: the multipliers show that no point of its box is feasible.
    Empty {
        /// The multipliers of each constraint.
        duals: Duals,
        /// Those of the bounds of its box.
        bounds: BoundWeights,
        /// What the multipliers leave above 0.
        gap: Frac,
    },
    /// Two sides: that where an entry is at most the limit, and that where it is at least the next integer.
    Split {
        /// The variable, by position in order of declaration.
        variable: u32,
        /// The entry, in row-major order.
        entry: u32,
        /// The limit.
        limit: i128,
    },
}

/// The nodes of a tree: first the root, and behind each node that has two sides all nodes of the lower one and then all of the
/// upper one. Contracts see the list.
pub type BranchTree = List<BranchNode>;
