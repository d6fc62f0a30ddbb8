//! What is said of a problem at a setting, and what stops a setting.
//!
//! An answer says what is found: a point that no other betters, that no point is feasible, or a ray along which the
//! objective falls for ever. Where it shows that, it has a multiplier for each entry of each constraint. Beside it stand an answer in whole
//! numbers, with the tree that shows it, what is found of constraints that no point keeps together, and what is told of a parameter's
//! range. A stop says why a setting has no answer; where an operation passes 128 bits it names the site. An outcome is how a setting ends:
//! what is answered, or why nothing is, with the place of the node that a stop names. A certificate that doesn't show its answer is
//! refused for a fault.
//!
//! | what must hold | where |
//! |---|---|
//! | multipliers are a list of arrays, one for each constraint, made and given back without taking memory | `Duals` |
//! | so are lists of constraints, of points, of outcomes and of a tree's nodes | `Members`, `Points`, `Outcomes`, `BranchTree` |
//! | an outcome has a place exactly where its stop names a node of the problem | `Outcome`, `FilterOutcome`, `RangeOutcome`, `specs/NodeStops.antt` |
//! | of the stops and faults, the empty allocation is want of memory | `FilterStop`, `RangeStop`, `BranchStop`, `CertFault` |
#![tactic(auto)]

mod answer;
mod branch_tree;
mod cert_fault;
mod duals;
mod filter_outcome;
mod filter_stop;
mod filtered;
mod not_ranged;
mod outcome;
mod range_outcome;
mod range_stop;
mod ranged;
mod site;
mod stop;
mod whole_answer;

pub use answer::Answer;
pub use branch_tree::{BoundWeight, BoundWeights, BranchNode, BranchTree};
pub use cert_fault::CertFault;
pub use duals::Duals;
pub use filter_outcome::{FilterEnd, FilterOutcome, FilterOutcomes};
pub use filter_stop::FilterStop;
pub use filtered::{Filtered, Members, Points};
pub use not_ranged::NotRanged;
pub use outcome::{Outcome, OutcomeEnd, Outcomes};
pub use range_outcome::{RangeEnd, RangeOutcome, RangeOutcomes};
pub use range_stop::RangeStop;
pub use ranged::Ranged;
pub use site::Site;
pub use stop::Stop;
pub use whole_answer::{BranchStop, WholeAnswer};
