//! Why a problem has no feasible point: an irreducible infeasible subsystem of its constraints, which no point keeps together, though
//! some point keeps all but any one of them. The deletion filter finds it.
//!
//! All constraints are tried first. Where no point of the domain keeps them all, they are gone through in order, and each is left
//! out for good where those that are left are still impossible together. What stays is the filter's set; `dcx_right` defines it by
//! points alone, and says when what is found is right. A program is solved in each step: the rows of the problem's reduced program
//! without those of the constraints that are left out, with nothing that is to be small. The rows of atoms stay.
//!
//! | what must hold | where |
//! |---|---|
//! | what is found is what the steps give: a point of the program of all constraints, or the constraints that stay, with the numbers of their programs' answers | `filter`, `specs/Found.antt`: `IsFound` |
//! | what is found so is right for the problem: `IsRightFor` of `dcx_right` | `laws::found_is_right`, `filter` |
//! | a set is impossible where its program can't be solved, and a solution is a point that keeps it | `laws::programs_tell` |
//! | a step stops exactly where its program is the first to stop, and then where a multiplier of the last step that was impossible passes 128 bits | `filter`, `specs/Steps.antt`: `StopsFilter` |
//! | where something is found nothing stops, and there is one stop at most | `laws::found_or_stopped`, `laws::stops_are_one` |
//! | one thing is found, with all its numbers | `laws::found_is_one` |
#![tactic(auto)]

mod duals;
mod filtering;
pub mod laws;
mod left;
mod program;
mod trying;

pub use filtering::filter;
