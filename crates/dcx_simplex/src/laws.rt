//! What holds of every run by Bland's rule: no basis comes twice in a phase, so a run ends, and its ends mean what they say.
//!
//! Each function is a law: its clause is a statement about all tableaus, and the body is empty.

ghost use Rattle.dcx_simplex.specs.Laws.{StaysReady, NeverRises, StaysJustAtZero, NeverRepeats, NeverRepeatsList, MakesFewPivots};
ghost use Rattle.dcx_simplex.specs.Start.{EndsBelow, EndsOnce, MakesFewInAll, ProgramsStart, RunsNeverRepeat, StopsAtLimit};
ghost use Rattle.dcx_simplex.specs.Runs.{PhasesAreReady, ProgramsRunShort};
ghost use Rattle.dcx_simplex.specs.Meaning.{FirstIsBounded, OptimalIsLeast, EndsFeasible, OptimalIsAttained, InfeasibleIsRight, UnboundedIsRight};

/// Along a phase right sides stay at least 0.
pub fn stays_ready()
    ensures { StaysReady }
{}

/// Along a phase the objective's value never rises.
pub fn never_rises()
    ensures { NeverRises }
{}

/// A pivot leaves the objective's value as it is just where the leaving row's right side is 0.
pub fn stays_just_at_zero()
    ensures { StaysJustAtZero }
{}

/// No set of basic columns comes twice in a phase.
pub fn never_repeats()
    ensures { NeverRepeats }
{}

/// No basis comes twice in a phase, as a list.
pub fn never_repeats_list()
    ensures { NeverRepeatsList }
{}

/// A phase makes fewer pivots than there are sets of columns.
pub fn makes_few_pivots()
    ensures { MakesFewPivots }
{}

/// A whole run makes few pivots.
pub fn makes_few_in_all()
    ensures { MakesFewInAll }
{}

/// A whole run that ends at the limit has a small limit.
pub fn ends_below()
    ensures { EndsBelow }
{}

/// Phase 1 is never unbounded.
pub fn first_is_bounded()
    ensures { FirstIsBounded }
{}

/// An infeasible end is right: the program has no point.
pub fn infeasible_is_right()
    ensures { InfeasibleIsRight }
{}

/// An optimal end is least: no point has a lower objective.
pub fn optimal_is_least()
    ensures { OptimalIsLeast }
{}

/// Every end shows the tableau of its basis, with right sides at least 0.
pub fn ends_feasible()
    ensures { EndsFeasible }
{}

/// An optimal end is attained: a point of the program has that objective.
pub fn optimal_is_attained()
    ensures { OptimalIsAttained }
{}

/// An unbounded end is right: the program has a point, and a ray along which the objective falls.
pub fn unbounded_is_right()
    ensures { UnboundedIsRight }
{}

/// A run has one end, and one tableau there.
pub fn ends_once()
    ensures { EndsOnce }
{}

/// A run that ends at the limit has done as many pivots.
pub fn stops_at_limit()
    ensures { StopsAtLimit }
{}

/// The first tableau of a program is one from which a run begins.
pub fn programs_start()
    ensures { ProgramsStart }
{}

/// No run from the start of a program repeats a basis within phase 1, nor within phase 2.
pub fn runs_never_repeat()
    ensures { RunsNeverRepeat }
{}

/// Each phase of a run from a start begins where a phase may begin, so what holds of phases holds of the run's.
pub fn phases_are_ready()
    ensures { PhasesAreReady }
{}

/// The run on a program, under any limit, repeats no basis within a phase, makes fewer than `2 ^ (columns + 1) + rows`
/// pivots, and is ended by the limit only where that is below this number.
pub fn programs_run_short()
    ensures { ProgramsRunShort }
{}
