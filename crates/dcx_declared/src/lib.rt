//! What is declared of a problem in its script: where a name stands, and the first variable whose entries are to be whole.
//!
//! | what must hold | where |
//! |---|---|
//! | a name that the problem declares stands at the first node of its variable or its parameter | `place_of`, `specs/Stands.antt`: `StandsAt` |
//! | whether some variable is to be whole | `has_whole`, `specs/Whole.antt`: `HasWhole` |
//! | where the first one stands, in order of declaration, and none exactly where no variable is so | `first_whole`, `specs/Whole.antt`: `StandsFirstWhole` |
//! | there is one such place of each | `laws::places_are_one` |
#![tactic(auto)]

pub mod laws;
mod stands;
mod whole;

pub use stands::place_of;
pub use whole::{first_whole, has_whole};
