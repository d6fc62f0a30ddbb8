//! Warm re-solves of linear programs: from the basic columns of an earlier optimal answer, by the dual simplex.
//!
//! | what must hold | where |
//! |---|---|
//! | the listed columns are made basic | `Installs` of `specs/Install.antt` |
//! | right sides below 0 are put right while no cost is positive | `Repairs` of `specs/Dual.antt` |
//! | what the whole run is, and where it ends optimal | `WarmEnds` of `specs/Warm.antt` |
//! | the run is carried out, and ends optimal exactly where this is told | `warm` |
//! | the answer at its end is optimal and right for the program | `read_warm` |
//! | a run has one end | `laws::ends_once` |
//! | an end that is optimal can be read | `laws::ends_optimal` |
#![tactic(auto)]

mod columns;
mod dual;
mod install;
pub mod laws;
mod read;
mod run;
mod step;

pub use columns::Columns;
pub use read::read_warm;
pub use run::warm;
