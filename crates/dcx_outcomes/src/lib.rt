//! The outcomes of a problem at the settings that a command asks for.
//!
//! | what must hold | where |
//! |---|---|
//! | an outcome has a place exactly where its stop names a node | `Outcome`, `FilterOutcome`, `RangeOutcome`, `names_node` of `dcx_answer` |
//! | there is one outcome for each setting, in order: the session's answer, or its stop with the place of the node that it names | `outcomes`, `specs/Outcomes.antt`: `AreOutcomes` |
//! | each answer among them is right for the problem at its setting, which fits; its points have an array of its shape for each variable, in order, and its multipliers the shapes of the constraints | `laws::outcomes_are_right`, `specs/Right.antt`: `AreRight`, by `IsRightAnswer` of `dcx_right` |
//! | settings have one list of outcomes, with all their numbers; want of memory is free | `laws::outcomes_are_one` |
//! | each setting that nothing stops is answered, warm or not, or memory runs out there | `laws::outcomes_are_complete`, `specs/Complete.antt`: `NothingStops` |
//! | where it is wanted, each setting is answered from the columns that the settings before it left, where that can be, and those that are answered so are counted | `outcomes`, `specs/Warm.antt`: `AreWarmOutcomes` |
//! | a warm answer is right too; it has the status and the value of the fresh one whenever both answer, and a warm stop is the fresh one's | `laws::warm_outcomes_are_right`, `laws::warm_outcomes_agree` |
//! | settings have one list of warm outcomes and one count of them, until memory runs out at a setting | `laws::warm_outcomes_are_one` |
//! | a question is asked of the session's program at each setting, in order: its answer, or what stops the program with the place of the node that it names | `asking.rt`: `Question`, `specs/Asking.antt`: `AreAskedOutcomes` |
//! | constraints are filtered at each setting, in order: what the filter of a session's program finds, or what stops it | `filter_outcomes`, `specs/Filters.antt`: `AreFilterOutcomes` |
//! | whatever it finds is right for the problem at its setting, which fits: `dcx_iis::filter` ensures it of each setting | `laws::filters_are_right` |
//! | settings have one list of what is found, or of stops; want of memory is free | `laws::filters_are_one` |
//! | where a variable is to be whole, an outcome tells how the run of nodes over a session's program ends, of at most 10,000 nodes; and else how a solve ends | `outcomes`, `specs/Warm.antt`: `AreFound`, `specs/Wholes.antt`: `AreWholeOutcomes` |
//! | each answer among those of a run of nodes is a whole optimum, or that there is no whole point, at its setting, which fits, with a tree that shows it, as `dcx_branch::branch` ensures of each setting; its point has an array of its shape for each variable, in order | `laws::wholes_are_right`, `specs/Right.antt`: `AreRight`, by `IsRightWhole` of `dcx_right` |
//! | settings have one list of them; want of memory is free | `laws::wholes_are_one` |
//! | a parameter has a range, by the program that a session keeps, or that stands first against it | `has_range`, `specs/Ranges.antt`: `HasRange`, `LacksRange` |
//! | one thing stands against the range of a parameter, and nothing where it has one | `laws::range_is_told` |
//! | the range of a parameter is told at each setting, in order: for a session's program, or what stops it; no step is counted | `range_outcomes`, `specs/Ranges.antt`: `AreRangeOutcomes` |
//! | whatever is told of it is right for the problem at its setting, which fits: `dcx_range::range` ensures it of each setting | `laws::ranges_are_right` |
//! | settings have one list of what is told of it, or of stops; want of memory is free | `laws::ranges_are_one` |
//! | a problem that has a map is reduced once for all settings, another one at most once more at each | `outcomes`, `filter_outcomes`: `counted` |
#![tactic(auto)]

mod asking;
mod filters;
mod finding;
pub mod laws;
mod ranges;
mod telling;
mod wholes;

pub use dcx_branch::branch;
pub use dcx_cache::{Session, begin};
pub use filters::filter_outcomes;
pub use finding::{Found, outcomes};
pub use ranges::{has_range, range_outcomes};
