//! What the program does: it reads its words, fetches its files, checks or solves a problem, and writes a report and a status.
//!
//! A module for each group of commands: `checking`, `solving`, `ranging`, `certifying`; `files` has what reading a file gives, or the run that
//! ends there.
#![tactic(auto)]

mod certifying;
mod checking;
mod command;
mod ended;
mod files;
pub mod laws;
mod no_range;
mod ranging;
mod solving;
mod status;
mod whole;

pub use command::{run, without_words};
pub use ended::Ended;
