//! The checks of a ray: along it no constraint is left, and the objective falls.
//!
//! The steepness of a node along a ray is its value at the steepness of its arguments, where that of a variable is the ray's array
//! (`dcx_right`). It is formed in 128 bits, nodes and entries rising, each node once, and kept.
//!
//! | what must hold | where |
//! |---|---|
//! | the steepness that is formed is the exact one, or the first operation that passes 128 bits is named, nodes and entries rising | `form_below`, `specs/Steepness.antt` |
//! | the first constraint and its first entry that are left along the ray, or an objective that doesn't fall by the slope | `check_ray`, `specs/Rays.antt` |
//! | no ray both passes and fails, and one that fails has one fault | `laws::ray_checks_are_settled` |
//! | an accepted problem is unbounded along a ray that passes, from each feasible point | `laws::passed_is_unbounded` |
#![tactic(auto)]

mod along;
mod checks;
pub mod laws;
mod node;
mod table;

pub use checks::check_ray;
