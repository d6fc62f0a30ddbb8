//! Trees of calls, problems over them, and what a problem means.
//!
//! A `Tree` holds expressions as nodes, where equal expressions are one node; contracts see it as the list of its nodes. A
//! `Problem` is an objective and constraints over the part of a tree that they reach, and `gather` makes it of roots in a
//! tree.
//!
//! `specs/Meaning.antt` says what a problem means in the user's words: values at a point and a setting, settings that fit,
//! the domain, feasible points, the Lagrangian and the three kinds of answers. The words rest on `dcx_convex`: each node is
//! read as a node there (`specs/Nodes.antt`), with variables and parameters numbered in order of declaration. So the
//! theorems of that crate hold here for every problem.
//!
//! | what must hold | where |
//! |---|---|
//! | a push finds the node of an equal expression, or adds one, or names the fault that is there; a refused push changes nothing | `Tree::push` |
//! | readers tell call, arguments, shape and place of the node | `Tree::call`, `Tree::arg`, `Tree::args`, `Tree::shape`, `Tree::shapes_of`, `Tree::place` |
//! | the value of a node is the defined one, or the first operation that passes 128 bits or divisor that is 0 is named | `Tree::value`, `specs/Values.antt` |
//! | which of them comes first goes by the nodes that it reaches, formed in rising order | `Tree::value`, `specs/Values.antt` |
//! | the value of a node is that of the finite tree to which its arguments unfold | `laws::values_unfold`, `specs/Expressions.antt` |
//! | the value of a node from what is kept of its arguments, or why it isn't formed | `node_value` |
//! | whether each leaf is given an array of its shape | `Tree::is_given` |
//! | which nodes some roots reach is told of each node | `reached_from` |
//! | ids are nodes, arguments stand first, each node is reached and numbered as it is first finished | the type `Problem`, `specs/Problems.antt` |
//! | both sides of a constraint have its shape, what is listed is what stands in the tree, symmetric and diagonal variables are square | the type `Problem`, `specs/Problems.antt` |
//! | whether two numbers stand to each other as a constraint asks | `Kind::holds` |
//! | whether nodes may be the objective and the sides of the constraints of a problem | `Tree::is_objective`, `Tree::are_constraints` |
//! | a problem is gathered whole and without anything else, and want of memory is the only fault | `gather`, `specs/Gather.antt` |
//! | gathering keeps the value of each root at every point and setting | `laws::gathering_keeps_values` |
//! | each call of a tree keeps the laws of calls | `laws::trees_are_lawful` |
//! | the sign of a node is true of its value | `laws::signs_are_true` |
//! | an accepted problem is convex at every fitting setting | `laws::accepted_is_convex` |
//! | at one setting there is one kind of answer, and one optimal value | `laws::answers_agree` |
#![tactic(auto)]

mod constraint;
mod gathering;
pub mod laws;
mod lists;
mod problem;
mod reached;
mod roots;
mod standing;
mod tree;
mod value;

pub use constraint::{Constraint, Kind, Sense};
pub use dcx_arena::{Count, NodeId, TreeFault};
pub use dcx_call::{Attribute, Call, Parameter, Variable, Whole};
pub use dcx_point::{Point, Setting};
pub use gathering::gather;
pub use lists::{Constraints, Parameters, Variables};
pub use problem::Problem;
pub use reached::reached_from;
pub use roots::Roots;
pub use tree::Tree;
pub use value::{kept_value, node_value};
