//! Branch and bound: whole optima of a problem with marked variables, over its reduced program at a setting.
//!
//! A node has a box. Its program is the reduced program of the problem at the setting, with one row for each bound of the box after
//! all other rows. Nodes are taken one after another, the root first. Where the rows can't be solved, where their least cost isn't
//! below the best value so far, or where all marked entries are whole, the node is a leaf; what its answer shows of the problem is
//! a leaf of a tree as `dcx_right` has it, in words of points. Any other node has two sides at the first marked entry that isn't
//! whole, and the lower side comes first with all that follows from it.
//!
//! | what must hold | where |
//! |---|---|
//! | the run ends so, with so many nodes, listed in this tree; what stops it | `branch`, `specs/Answers.antt`: `IsEndOf`; `specs/Run.antt` |
//! | such an end is right: a whole optimum with a tree that shows it, or a tree that shows that there is no whole point | `laws::runs_are_right`, `branch`, `IsRightFor` in `WholeAnswers` of `dcx_right` |
//! | a run has one end | `laws::runs_are_one` |
//! | reduced programs have what `branch` asks of them | `laws::programs_have_unknowns` |
//! | the linear program of a node, and which bounds are those of its box | `specs/Nodes.antt` |
//! | answers of a node's linear program are leaves of its box, and an optimal one has a feasible point that keeps the bounds | `laws::answers_are_leaves` |
#![tactic(auto)]

mod bound;
pub mod laws;
mod leaf;
mod limits;
mod next;
mod node;
mod place;
mod rows;
mod search;
mod side;

pub use bound::BoundAt;
pub use place::Place;
pub use search::branch;
