//! What shows the answer to a problem at a setting.
use crate::Weights;
use dcx_answer::Duals;
use dcx_frac::Frac;
use dcx_point::{Point, Setting};

/// What shows the answer to a problem at a setting. Value and bound are of the minimized objective.
#[derive(Drop)]
pub enum Cert {
    /// A point that no other betters.
    Optimal {
        /// The minimized objective at the point.
        value: Frac,
        /// A value of each variable.
        point: Point,
        /// The multipliers of each constraint.
        duals: Duals,
        /// The weights of each atom that has a variable below it.
        weights: Weights,
        /// The value of each parameter, where it is told.
        params: Option<Setting>,
    },
    /// No point is feasible.
    Infeasible {
        /// The multipliers of each constraint.
        duals: Duals,
        /// What the multipliers leave above 0.
        gap: Frac,
        /// The weights of each atom that has a variable below it.
        weights: Weights,
        /// The value of each parameter, where it is told.
        params: Option<Setting>,
    },
    /// The minimized objective falls for ever from the point along the ray.
    Unbounded {
        /// A feasible value of each variable.
        point: Point,
        /// How each variable changes along the ray.
        ray: Point,
        /// The minimized objective is at most this at the point.
        bound: Frac,
        /// The minimized objective falls by at least this for each step along the ray.
        slope: Frac,
        /// The value of each parameter, where it is told.
        params: Option<Setting>,
    },
}
