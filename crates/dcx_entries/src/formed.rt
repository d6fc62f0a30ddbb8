//! What is kept of the nodes of a problem once all are formed.

use crate::standing::Standing;
use dcx_arena::NodeId;
use dcx_linear::{Coef, Form};
use dcx_math::List;

/// A row of the graph of a node: a form that is at most 0, and where it comes from.
#[derive(Drop)]
pub struct FormedRow<C: Coef> {
    /// The node.
    pub node: NodeId,
    /// The entry of the node to which the row belongs.
    pub entry: u32,
    /// The number of the row, counted from 0 among those of its entry.
    pub row: u32,
    /// The form.
    pub form: Form<C>,
}

/// Rows of graphs, in order.
pub type FormedRows<C> = List<FormedRow<C>>;

/// What stands for nodes, in order.
pub type StandingList<C> = List<Standing<C>>;

/// What is kept of the nodes of a problem once all are formed: the forms of the objective and of the sides of constraints, which
/// no other node stands in for, and the rows of the graphs.
#[derive(Drop)]
pub struct Formed<C: Coef> {
    /// What stands for the nodes, in order; nothing is said of those with which no constraint and no objective begins.
    pub standing: StandingList<C>,
    /// The rows of the graphs, by node and entry.
    pub rows: FormedRows<C>,
}
