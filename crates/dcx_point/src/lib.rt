//! Points and settings: an array for each variable, and one for each parameter.
//!
//! Both are lists of pairs of a name and an array, in the order in which the names were first put. Both stand on one map
//! in insertion order.
//!
//! | what must hold | where |
//! |---|---|
//! | a put of a name that is there replaces its array in place, a new one follows at the end, a refused put changes nothing | `Setting::put`, `Point::put` |
//! | the array of a name is that of its pair, and none where no pair has it | `Setting::get`, `Point::get` |
//! | no name stands twice | `Setting::len`, `Point::len` |
//! | a copy has the same pairs, in the same order | `Setting::copy`, `Point::copy` |
//! | what is put is found, and nothing else changes | `laws::puts` |
#![tactic(auto)]

mod arrays;
pub mod laws;
mod point;
mod setting;

pub use dcx_atom::Array;
pub use point::Point;
pub use setting::Setting;
