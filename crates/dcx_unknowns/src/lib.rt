//! The reduced program of a problem: its unknowns and rows, as a layout, and when forms over the unknowns are one.
//!
//! An entry of a variable has an unknown of its own, shares that of its mirror, or is 0: of a symmetric variable the entries
//! on and above the diagonal have their own, of a diagonal one those on the diagonal, of any other all. Unknowns are numbered
//! by variables in order of declaration and by entries in row-major order. Behind them stand the auxiliary unknowns of the
//! atoms that are reduced, by node. The rows are those of the constraints, then those of the graphs.
//!
//! `specs/Equations.antt` has the equation of each node, over exact numbers. The form of a node that is a number by the rules is
//! its value; that of any other is what its call makes of the forms of its arguments: of a linear call the sum of its terms, of a
//! product or a quotient the sum over its pairs, of an atom the result of its graph over the node's auxiliary unknowns, whose
//! rows, with the forms of the arguments put in, are rows of the program.
//!
//! | what must hold | where |
//! |---|---|
//! | which entries have an unknown of their own, and whose unknown stands for an entry | `specs/Own.antt`, `entry_unknowns` |
//! | where the unknowns of each variable begin | `first_unknowns` |
//! | unknown n is that of owner n, and has the kind that is demanded | `laws::unknowns_are_numbered` |
//! | unknowns of their kinds are a point of the domain, and each point of the domain is one of such unknowns | `laws::points_are_unknowns`, `laws::domains_are_unknowns` |
//! | the point of unknowns along a ray goes along a ray | `laws::rays_are_unknowns` |
//! | the kinds of all unknowns, and how many rows and columns there are; `TooLarge` exactly over 600 rows or 2,400 columns | `lay_out` |
//! | the graph of a node is that of its atom | `node_graph` |
//! | a problem has few unknowns of variables | `laws::unknowns_are_few` |
//! | forms that meet the equations, with the rows of the graphs, are a reduced program | `laws::equations_reduce` |
//! | there is one such form of each node | `laws::equations_have_forms`, `laws::equations_determine` |
#![tactic(auto)]

mod graph;
pub mod laws;
mod layout;
mod own;
mod size;
mod stop;
mod variable;

pub use graph::node_graph;
pub use layout::{Layout, lay_out};
pub use stop::LayoutStop;
pub use variable::{entry_unknowns, first_unknowns};
