//! Certificates that are built are accepted, or an operation passes 128 bits.
//!
//! The program of a problem has a point of its variables and the unknowns of the graphs of its nonlinear calls. Where multipliers and
//! weights show that no choice of them falls below a number, each condition on the weights is met, what reaches the variables may, and
//! the total is at least that number: for else some unknown could be raised, or some variable, until the bound broke. Where the
//! objective falls for ever along a ray, each expression goes along it as its steepness, up to a number that stays: for else some
//! constraint, or the descent, would break far out. There is no code: each function of `laws` is a law, whose clause is a statement
//! about all problems.
//!
//! | what must hold | where |
//! |---|---|
//! | the certificate that is built of an answer of a session, from its columns too, or of the numbers of a setting, is accepted, or an operation passes | `laws::built_is_certified`, `specs/Certified.antt` |
//! | the program of a session is that of forms that meet the equations of the nodes, and its rows come from the constraints and the graphs | `laws::session_programs_have_forms`, `specs/Programs.antt` |
//! | what bounds the forms of a program at all unknowns bounds it at all points and unknowns of the graphs | `laws::forms_bound_programs` |
//! | where multipliers and weights bound the program, the bound checks fail with nothing but an operation that passes 128 bits | `laws::bounds_fail_wide` |
//! | weights that let no unknown lower coefficients times results meet the conditions of slopes, of each atom | `laws::atoms_have_dual_graphs` |
//! | where a problem is unbounded along a ray, the steepness along it shows that | `laws::unbounded_goes_by_rays` |
#![tactic(auto)]

pub mod laws;
