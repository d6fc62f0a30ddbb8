//! What the calls of the language do: `cp.sum`, `cp.Variable`, `np.array`, `range` and the others.
//!
//! What each call does stands in `specs/Calls.antt`, one line for each in `perform`, over a state and the arguments that are
//! given. The code has one function for each line.
//!
//! | what must hold | where |
//! |---|---|
//! | a call gives its value and leaves its state, or is the first fault, in the order: not where it is assigned, its arguments, the call itself | `function_called` |
//! | one line for each call: the node that it makes with its operands, axis, `k` and order | `perform`, `expressions` |
//! | differences are taken k times, and only of more than k entries; `cp.tv` sums their magnitudes | `differenced`, `total_variation` |
//! | `cp.norm` of order 1 and "inf" of a scalar or vector alone | `norm` |
//! | an objective has one entry | `objective` |
//! | `np.array`, `np.ones`, `np.zeros` and `np.eye` are the arrays of these numbers, or why there are none | `plain` |
//! | a range goes from 0 where one number is given, and by steps of 1 where no step is | `range` |
//! | declarations have the shape, the attributes and the first value that are given, under the assigned name | `declared` |
//!
//! Want of memory alone is free.
#![tactic(auto)]

mod calls;
mod declared;
mod expressions;
mod given;
mod plain;

pub use calls::function_called;
