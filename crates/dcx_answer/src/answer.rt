//! The answers to a problem at a setting.
use crate::Duals;
use dcx_frac::Frac;
use dcx_point::Point;

/// An answer to a problem at a setting. Value and bound are of the minimized objective.
#[derive(Drop)]
pub enum Answer {
    /// A point that no other betters, with multipliers that show it.
    Optimal {
        /// The minimized objective at the point.
        value: Frac,
        /// A value of each variable.
        point: Point,
        /// The multipliers of each constraint.
        duals: Duals,
    },
    /// No point is feasible, as these multipliers show.
    Infeasible {
        /// The multipliers of each constraint.
        duals: Duals,
        /// What the multipliers leave above 0.
        gap: Frac,
    },
    /// The minimized objective falls for ever from the point along the ray.
    Unbounded {
        /// A feasible value of each variable.
        point: Point,
        /// How each variable changes along the ray.
        ray: Point,
        /// The minimized objective is at most this at the point.
        bound: Frac,
        /// The minimized objective falls by at least this for each step along the ray.
        slope: Frac,
    },
}
