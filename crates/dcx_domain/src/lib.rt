//! Whether a point lies in the domain of a problem, and where it leaves it first.
//!
//! An array is in the domain of a variable where each entry is as the attribute demands: at least 0, at most 0, equal to
//! its mirror, or 0 off the diagonal. A variable whose entries are to be 0 or 1 counts as nonneg, and that entries are whole
//! isn't demanded. Entries are counted from 0 in row-major order, and variables in order of declaration. Nothing here takes
//! memory.
//!
//! | what must hold | where |
//! |---|---|
//! | which entries keep what an attribute demands, and which leave it; of two that mirror each other the one below the diagonal is asked | `specs/Entries.antt` |
//! | an array is in the domain exactly where each entry keeps it; each entry keeps it or leaves it, and not both; of a square the entries below the diagonal are asked | `laws::entries` |
//! | the first entry of an array that leaves it, and none exactly where the array is in the domain | `outside` |
//! | the same of numbers under an attribute and a shape, without a variable | `first_left` |
//! | a point is in the domain of a problem exactly where each variable's array is | `laws::points` |
//! | the first variable, and its first entry, at which a point leaves the domain; none exactly where the point is in it | `point_outside`, `specs/Points.antt` |
#![tactic(auto)]

mod array;
mod entry;
pub mod laws;
mod point;

pub use array::{first_left, outside};
pub use point::{Outside, point_outside};
