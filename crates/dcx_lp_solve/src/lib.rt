//! Rows are solved exactly: they are made whole, and the simplex method solves them over the linked tableau, by Bland's rule from the
//! first basis, or by a warm run from the basic columns of an earlier answer, where such a run ends optimal.
//!
//! `solve_rows` is the whole way by Bland's rule. Who has columns makes the scaled program of the rows once (`integer_rows` of
//! `dcx_std`), and has it solved by `solve_warm`, and where that gives nothing by `solve_program`.
//!
//! | what must hold | where |
//! |---|---|
//! | the answer has the numbers of the last basis of the run on the scaled program of the rows | `solve_rows`, `specs/Solved.antt`: `IsSolved` |
//! | a scaled program is solved so, or stops exactly where its run ends at a pivot that passes 128 bits or at the limit | `solve_program`, `specs/Solved.antt`: `IsRunSolved`, `RunStops` |
//! | the answer has the numbers of the last basis of the warm run on a scaled program, and there is one exactly where that run ends optimal | `solve_warm`, `specs/Warm.antt`: `RunsWarm` |
//! | an answer that is read so is right for the scaled program | `laws::answers_are_right`, `laws::warm_answers_are_right`, `solve_rows`, `solve_program`, `solve_warm` |
//! | the tableau that is handed out is the one from which the answer is read | `solve_rows`, `IsSolved`, `IsWarmRun` |
//! | rows stop where they have no scaled program, and else exactly where the run ends at a pivot that passes 128 bits or at the limit | `solve_rows`, `rows_stop`, `specs/Solved.antt`: `Stops` |
//! | rows have one program, one tableau at the end and one answer under a limit, also by a warm run from the same columns | `laws::answers_are_one`, `laws::warm_answers_are_one` |
//! | rows that are solved have no stop, and rows have one stop at most under a limit, want of memory aside | `laws::solved_or_stopped`, `laws::stops_are_one` |
//! | a stop is told of a setting, a node or a step with the same numbers | `run_stop`, `specs/Stops.antt` |
//! | rows stop at the limit only where it is below 2 ^ (columns + 1) + rows, of their program with its artificials | `laws::few_pivots` |
#![tactic(auto)]

pub mod laws;
mod solving;
mod stop;
mod warming;

pub use solving::{Solved, solve_program, solve_rows};
pub use stop::{SolveStop, rows_stop, run_stop};
pub use warming::{WarmEnd, solve_warm};
