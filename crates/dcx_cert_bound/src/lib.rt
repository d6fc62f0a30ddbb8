//! What the multipliers and the weights of a certificate show: a bound on the minimized objective, or that no point is feasible.
//!
//! The values of the nodes without a variable below them are formed, but for those that are kept already. The multipliers
//! give coefficients to the objective and to the sides of the constraints, and the weights hand them on to the variables
//! (`dcx_cert_collect`). What reaches the variables may be nothing that a point of the domain makes small, and the total that is left
//! is the bound.
//!
//! | what must hold | where |
//! |---|---|
//! | the checks and their faults: the values are formed, the coefficients collected, what reaches each variable is asked, and the total is at least what is stated | `check_bound`, `bound_checks` of `specs/Checks.antt` |
//! | what reaches a variable may: 0 where an entry is free, of its sign where it has one; of a symmetric variable the sums of mirrored entries are 0, of a diagonal one the diagonal is | `specs/Variables.antt` |
//! | no check both passes and fails, and one that fails has one fault | `laws::bounds_are_settled` |
//! | where they pass, a feasible point of the stated value is optimal, or no point is feasible | `laws::bounds_show_answers` |
//!
//! That no step takes quadratic time is by design and in no contract.
#![tactic(auto)]

mod bound;
mod checking;
mod collecting;
mod entries;
pub mod laws;
mod variables;
mod weights;

pub use bound::check_bound;
