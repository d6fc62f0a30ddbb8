//! The checker of certificates.
//!
//! A certificate shows the answer to a problem at a setting by numbers that anyone can check. The checks go one after the other, and the
//! first that fails tells why. Nothing is solved: what is formed are values of the problem's own expressions, coefficients that
//! multipliers and weights hand on over them, and their steepness along a ray. The crate stands on neither the simplex nor the reduction, but
//! for `dcx_unknowns`, which tells how many rows the graph of an atom has and which entries of a variable are one.
//!
//! A check demands something of a problem, a setting and what a certificate has: that the setting fits, that the values that the
//! certificate tells are those of the setting, that the point and the ray lie in the domain, that each constraint holds and the
//! objective is the stated value, that multipliers have their signs, and that gap and slope are above 0. The first place where
//! it fails is told: parameters, variables and constraints in order, and entries in row-major order. Values are formed when
//! they are first needed, and are kept: one table serves all checks of a certificate.
//!
//! | what must hold | where |
//! |---|---|
//! | what each check demands, and the fault that tells where it fails first | `specs/SingleChecks.antt` |
//! | no check both passes and fails, and one that fails has one fault | `laws::checks_are_settled` |
//! | what passes is a fitting setting, a point of the domain, a feasible point with the stated objective, multipliers of the problem | `laws::checks_are_sound` |
//! | a setting that fits, and a point with the names and the shapes of the variables, give each leaf what it takes | `laws::arrays_are_given` |
//! | the code answers what its check comes to, or that memory ran out | `check_fit`, `check_params`, `check_domain`, `check_ray_domain`, `check_constraints`, `check_value`, `check_start_bound`, `check_dual_signs`, `check_gap`, `check_descent` |
//! | the checks of a certificate, in order | `specs/Checks.antt`: `checks_of` |
//! | a certificate passes them, or the first that fails tells its fault | `certify`, `certify_with`: `checked` |
//! | what passes is right in the problem's own words: a feasible point of the stated value with multipliers whose Lagrangian bound is that value, or multipliers that show that no point is feasible, or a feasible point and a ray of unbounded descent | `certify`: `shown`, `laws::passed_are_shown`, `specs/Shown.antt` |
//! | no certificate both passes and fails, and one that fails has one fault | `laws::tells_one_thing` |
#![tactic(auto)]

mod checking;
mod constraints;
mod domain;
mod duals;
mod fit;
mod kept;
pub mod laws;
mod numbers;
mod objective;
mod parameters;
mod signs;

pub use checking::{certify, certify_with};
