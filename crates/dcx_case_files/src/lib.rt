//! Files of worked cases: what the program is given in each, what is wanted of it, and whether that is what came.
//!
//! A file is a list of cases or a page with examples, as `docs/CASES.md` says. It is read as a whole, before any case is run, so
//! that what reads it stands on none of the crates that the cases are of.
#![tactic(auto)]

mod bytes;
mod case;
mod count;
mod file;
mod fronts;
mod given;
mod list;
mod made;
mod page;
mod short;

pub use case::{Case, Entry};
pub use count::{At, Came, Count, Wanted};
pub use file::entries;
pub use fronts::Fronts;
pub use given::Given;
