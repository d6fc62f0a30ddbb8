//! What a check of a script tells: why a file is refused, or what is found of an accepted problem.
//!
//! The types stand below what finds them (`dcx_front`) and what prints them (`dcx_report`), so that neither waits for the other.
//!
//! | what must hold | where |
//! |---|---|
//! | a refusal carries what one of its number does | the type `Refusal`, `is_refusal` of `specs/Refusals.antt` |
//! | a refusal has the file, the number, the place and what is carried that it is made of | `Refusal::of`, `IsRefusedAs` of `specs/Made.antt` |
//! | a refusal that a command makes has its number, its place and what it says | `Refusal::too_long`, `Refusal::whole_variable`, `Refusal::not_ranged` |
//! | each number has its name | `Refusal::name`, `refusal_name` |
#![tactic(auto)]

mod checked;
mod refusal;
mod refusing;

pub use checked::Checked;
pub use refusal::{Carried, Refusal, RefusalSource};
