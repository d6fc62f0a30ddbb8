//! Whether a setting fits a problem, and what stops it first.
//!
//! A setting fits where it names parameters of the problem alone, and gives each parameter an array of its shape whose
//! entries are as its attribute demands. The names of the setting are asked first, in its order, and then the parameters in
//! order of declaration: whether there is an array, then its shape, then its entries. Divisors aren't asked here.
//!
//! | what must hold | where |
//! |---|---|
//! | which settings fit, and which stop comes first | `specs/Fit.antt` |
//! | a setting fits, or the first misfit stops it | `fit` |
//! | a setting fits, or one first misfit stops it, and not both | `laws::fits_or_stops` |
//! | a setting is a fitting one of the problem exactly where it fits here and nothing is divided by 0 | `laws::fitting_is_meant` |
#![tactic(auto)]

mod fault;
pub mod laws;
mod parameters;

pub use parameters::fit;
