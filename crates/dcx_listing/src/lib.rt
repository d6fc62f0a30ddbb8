//! What a script stands for, as lines: its problem with the settings of its solves, its reduced program, or how branch and bound with a
//! limit of nodes ends. And the reports of runs that have no memory.
//!
//! They are for worked cases of what no run over files in memory shows. No contract says what stands in them: the cases do.
#![tactic(auto)]

mod branched;
mod calls;
mod gathered;
mod given;
mod programs;
mod reduced;
mod short;
mod stops;

pub use branched::branch_line;
pub use gathered::problem_lines;
pub use reduced::{Asked, program_lines};
pub use short::short_report;
