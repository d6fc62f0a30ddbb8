//! The script of a made-up problem of any size: a line through so many points by least absolute deviations, whose
//! slope is weighed by a parameter.
//!
//! | what must hold | where |
//! |---|---|
//! | which bytes the script has | `trial_text` of `specs/Trial.antt`; `trial_script` |
//! | the whole script for three points | `proofs/Rows.antt` |
#![tactic(auto)]

mod script;

pub use script::trial_script;
