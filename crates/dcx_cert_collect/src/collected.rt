//! What is collected over the nodes of a problem.

use dcx_frac::{Frac, Fracs};
use dcx_math::List;
use dcx_tree::NodeId;

/// The coefficients that reach the entries of a variable.
#[derive(Drop)]
pub struct Reached {
    /// The node of the variable.
    pub node: NodeId,
    /// The coefficient of each entry.
    pub coefficients: Fracs,
}

/// Variables with what reaches them, in falling order of their nodes.
pub type ReachedList = List<Reached>;

/// What the pass gives.
#[derive(Drop)]
pub struct Collected {
    /// What reaches the variables.
    pub reached: ReachedList,
    /// The sum of coefficients times values of the nodes that reach no variable.
    pub total: Frac,
}

/// What is collected so far.
#[derive(Drop)]
pub(crate) struct Collecting {
    /// The coefficients of the nodes that haven't handed theirs on, node by node and entry by entry.
    pub below: Vec<Frac>,
    /// What reaches the variables that the pass has met.
    pub reached: Vec<Reached>,
    /// The sum of coefficients times values of the nodes that it has met and that reach no variable.
    pub total: Frac,
}
