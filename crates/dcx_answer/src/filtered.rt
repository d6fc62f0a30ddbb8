//! What filtering finds.

use crate::duals::Duals;
use dcx_frac::{Frac, List};
use dcx_point::Point;

/// Constraints, by their numbers, seen by contracts as a list.
pub type Members = List<u32>;

/// Points, seen by contracts as a list.
pub type Points = List<Point>;

/// What filtering the constraints of a problem finds.
#[derive(Drop)]
pub enum Filtered {
    /// A point is feasible.
    Feasible {
        /// A value of each variable.
        point: Point,
    },
    /// No point is feasible, and none keeps these constraints together.
    Infeasible {
        /// The constraints, counted from 0, rising.
        members: Members,
        /// The multipliers of each constraint of the problem; 0 for those that aren't members.
        duals: Duals,
        /// What the multipliers leave above 0.
        gap: Frac,
        /// For each member, in order, a point that keeps all the others.
        points: Points,
    },
}
