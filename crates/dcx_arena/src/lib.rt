//! The arena of expressions, where equal expressions are one node.
//!
//! A tree is generic in the calls that its nodes hold (`Operator`). Contracts see it as the list of its nodes. How nodes
//! lie in memory, arguments as chains of cells and nodes in chains of buckets, shows in no contract of `Tree`.
//!
//! | what must hold | where |
//! |---|---|
//! | `push` answers the node that is there and leaves the tree as it was, or adds one at the end | `Tree::push`, `IsPushed` of `specs/Nodes.antt` |
//! | a fault comes exactly from its cause, nodes named before entries, and leaves the tree as it was | the same |
//! | arguments stand before their node, no two nodes are alike, shapes are those that the calls give | `Tree::push`, `Tree::nodes`, `Tree::gathered`, `AreNodes` of `specs/Nodes.antt` |
//! | nodes and entries are at most 20,000 | the same, by `AreNodes` |
//! | call, arguments, shape and place of a node | the readers of `Tree` |
//! | a part has the nodes that its roots reach, in the order of first finishing, with their calls, shapes and places | `Tree::gathered`, `IsGathered` of `specs/Gather.antt` |
//! | a node stands for one finite expression, and no other node for that one | `laws::sharing` |
//! | the order of a part has the reached nodes, each once; its nodes stand for the expressions that they stood for | `laws::parts` |
//!
//! That a push takes no longer in a large tree, and that a part is made in linear time, is by design and in no contract.
#![tactic(auto)]

mod fault;
mod gather;
pub mod laws;
mod node;
mod operator;
mod store;
mod tree;
mod walk;

pub use fault::{Count, TreeFault};
pub use node::NodeId;
pub use operator::Operator;
pub use tree::Tree;
