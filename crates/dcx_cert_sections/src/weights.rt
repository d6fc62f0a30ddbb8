//! The weights of the atoms of a problem.

use dcx_arena::NodeId;
use dcx_frac::{Fracs, List};

/// The weights of an atom.
#[derive(Drop)]
pub struct NodeWeights {
    /// The atom's node.
    pub node: NodeId,
    /// A number for each row of its graph, by result entry and row.
    pub numbers: Fracs,
}

/// The weights of some atoms, in order.
pub type Weights = List<NodeWeights>;
