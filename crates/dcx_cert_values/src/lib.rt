//! Values of the nodes of a problem, formed once each and kept, and what forming them shows.
//!
//! A table has a place for the value of each node at one setting and one point. Nodes are formed in rising order, each entry in 128
//! bits, and only those that aren't kept: all calls together form each node once. What a call walks over are the nodes that it
//! forms and the nodes between them.
//!
//! | what must hold | where |
//! |---|---|
//! | which node stops first, and the checks that form values | `specs/Forming.antt` |
//! | what is kept is the value of its node, and the values below it are kept | `AreKeptValues` of `specs/Tables.antt` |
//! | the nodes that roots reach are formed and kept, or the first that isn't formed stops the check; what was kept stays | `Values::form` |
//! | the same of the nodes that reach no variable | `Values::form_fixed` |
//! | values of marked nodes alone are left | `Values::keep` |
//! | the same of the divisors of quotients, none of whose entries is 0 | `divisors` |
//! | where the divisors of an accepted problem pass, nothing is divided by 0 at any point | `laws::divisors_are_not_zero` |
//! | none of these checks both passes and fails, and one that fails has one fault | `laws::checks_are_settled` |
//! | the first entry at which two arrays don't stand to each other as a constraint asks | `first_broken`, `specs/Broken.antt` |
#![tactic(auto)]

mod comparison;
pub mod laws;
mod marks;
mod node;
mod quotients;
mod table;

pub use comparison::{Broken, first_broken};
pub use quotients::divisors;
pub use table::Values;
