//! What a problem is gathered from.

use crate::constraint::Sense;
use crate::lists::{Constraints, Parameters, Variables};
use dcx_arena::NodeId;
use dcx_shape::Place;

/// Where a problem begins in a tree, and all that is declared there.
#[derive(Drop)]
pub struct Roots {
    /// Whether the objective is minimized or maximized.
    pub sense: Sense,
    /// The node of the objective.
    pub objective: NodeId,
    /// Where the objective stands in the script.
    pub objective_place: Place,
    /// The constraints in the order of the script.
    pub constraints: Constraints,
    /// The declared variables, in order.
    pub variables: Variables,
    /// The declared parameters, in order.
    pub parameters: Parameters,
}
