//! The calls that work entry by entry: the magnitude, the parts above and below 0, the greatest and the least.
//!
//! Each is an `Atom` of `dcx_atom` with all its laws. The three functions of one array are one call, `Kink`, and the two
//! of several arrays another, `Extreme`, whose concave half is the mirror image of its convex one. In both every row puts
//! the unknown of a result entry beyond one term, so they share the graph.
//!
//! | what must hold | where |
//! |---|---|
//! | `Abs` is the magnitude, `Pos` the part above 0, `Neg` the size of the part below 0 | `specs/Kinks.antt` |
//! | `Maximum` is the greatest of so many arrays of one shape, `Minimum` the least | `specs/Extremes.antt` |
//! | rows, unknowns and results of a graph, in order | `entrywise_graph`, `specs/Rows.antt` |
//! | slopes of one array, entry by entry with the tests | `kink_slopes`, `entry_slope` |
//! | slopes of several arrays, by argument and then by entry | `by_argument` |
//! | sign, monotonicity, curvature, graph soundness and tightness, subgradient, recession | `specs/KinkLaws.antt`, `specs/ExtremeLaws.antt` |
#![tactic(auto)]

mod extremes;
mod kinks;
mod magnitude;
mod parts;
mod rows;
mod several;

pub use magnitude::Abs;
pub use parts::{Neg, Pos};
pub use several::{Maximum, Minimum};
