//! What holds of all rows that are solved, or stopped.
//!
//! Each function is a law: its clause is a statement about all rows, and the body is empty.
ghost use Rattle.dcx_lp_solve.specs.Right.{AnswersAreRight, WarmAnswersAreRight};
ghost use Rattle.dcx_lp_solve.specs.OneSolution.{AnswersAreOne, WarmAnswersAreOne, SolvedOrStopped, StopsAreOne, FewPivots};

/// The answer of rows that are solved, which is read at the end of the run, is right for their scaled program.
pub fn answers_are_right()
    ensures { AnswersAreRight }
{}

/// Rows have one solution under a limit: one program, one tableau at the end, and one answer.
pub fn answers_are_one()
    ensures { AnswersAreOne }
{}

/// So is the answer of rows that a warm run from listed columns solves.
pub fn warm_answers_are_right()
    ensures { WarmAnswersAreRight }
{}

/// Rows have one solution by a warm run from the same columns under a limit.
pub fn warm_answers_are_one()
    ensures { WarmAnswersAreOne }
{}

/// Rows that are solved have no stop but want of memory.
pub fn solved_or_stopped()
    ensures { SolvedOrStopped }
{}

/// Rows have one stop under a limit, want of memory aside.
pub fn stops_are_one()
    ensures { StopsAreOne }
{}

/// A limit that stops rows is small: the columns and rows of their program bound it.
pub fn few_pivots()
    ensures { FewPivots }
{}
