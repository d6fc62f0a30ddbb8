//! What the nodes of a problem are formed from.

use dcx_point::Setting;
use dcx_tree::Problem;

/// A problem, what is told of its nodes, and what they take.
#[derive(Drop)]
pub(crate) struct Given<'a> {
    /// The problem.
    pub problem: &'a Problem,
    /// Whether each node is reduced.
    pub reduced: &'a [bool],
    /// Whether each node reaches no variable.
    pub fixed: &'a [bool],
    /// What the parameters take.
    pub setting: &'a Setting,
    /// The first unknown of each variable.
    pub firsts: &'a [u32],
}
