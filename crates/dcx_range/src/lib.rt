//! The range of a parameter: how far it may move, where all others stay, before the plan changes.
//!
//! A parameter has a range where it is a number that stands in no coefficient of an unknown: then the rows of the program move with it
//! by their constants alone, the tableau of a basis stays, and its right sides move along lines. While they stay at least 0 the basis
//! stays optimal, with the same multipliers, and the value of the problem moves along a line too.
//!
//! | what must hold | where |
//! |---|---|
//! | where a parameter stands in affine numbers, forms and rows | `specs/Standing.antt` |
//! | a parameter has a range, or the first thing that stands against it is told | `ranged`, `specs/Parameters.antt`: `IsTold` |
//! | one thing is told of a name | `laws::tells_once` |
//! | the numbers of a span are formed in the written order of operations, or the first that passes is told | `range`, `specs/Operations.antt`: `operations` |
//! | the span is the interval of values at which the last basis stays feasible | `range`, `specs/Interval.antt`: `IsInInterval` |
//! | infeasible, unbounded and the stops of the run come where the run at the setting ends so | `range`, `specs/Range.antt`: `RangeGives` |
//! | what a run tells so is right: the value at the setting is in the span, and at each fitting setting that differs by a value in the span alone some point and some multipliers show that the problem has the value on the line | `laws::ranges_are_right`, `range`, `HoldsAlong` in `Ranges` of `dcx_right` |
//! | where infeasible is told, some multipliers show that no point is feasible; where unbounded is, the objective falls for ever from some feasible point along some ray | `laws::ranges_are_right`, `range`, `HasNoPoint` and `HasNoLeast` in `Ranges` of `dcx_right` |
//! | a parameter has one range at a setting under a limit, or one stop | `laws::ranges_are_one` |
#![tactic(auto)]

mod asked;
mod ends;
mod finding;
pub mod laws;
mod numbers;
mod rates;
mod standing;
mod told;

pub use finding::range;
pub use told::ranged;
