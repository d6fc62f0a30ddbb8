//! The outline of a problem: what its certificates show of it.
//!
//! | what must hold | where |
//! |---|---|
//! | the outline has the names and the shapes of parameters, variables and constraints, and the atoms that have a variable below them with the number of their rows | `outline_of_problem`, `problem_outline` of `specs/Drawn.antt` |
//! | which nodes have no variable below them | `fixed_nodes`, `AreFixed` of `specs/Drawn.antt` |
#![tactic(auto)]

mod atoms;
mod drawing;
mod fixed;

pub use drawing::outline_of_problem;
pub use fixed::fixed_nodes;
