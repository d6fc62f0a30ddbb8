//! The laws above the definitions of `specs/`. There is no code: each clause is a statement about all problems and boxes.
ghost use Rattle.dcx_branch.specs.Nodes.{AnswersAreLeaves};
ghost use Rattle.dcx_branch.specs.Answers.{RunsAreRight, RunsAreOne};
ghost use Rattle.dcx_branch.specs.Unknowns.{ProgramsHaveUnknowns};

/// Answers of the linear program of a node, which has a row for each bound of a box after the rows of a reduced program of the
/// problem, are leaves of the box; where the answer is optimal, its unknowns stand for a feasible point that keeps the bounds.
pub fn answers_are_leaves()
    ensures { AnswersAreLeaves }
{}

/// A run of nodes over a reduced program of a problem at a setting has a right end for the problem there: a whole optimum or that
/// there is no whole point, with a tree that shows it.
pub fn runs_are_right()
    ensures { RunsAreRight }
{}

/// A run of nodes has one end: one value, one point and one number of nodes, or one stop. Want of memory is free.
pub fn runs_are_one()
    ensures { RunsAreOne }
{}

/// The unknowns of the variables are among those of each reduced program, whether the problem is reduced at a setting or a program
/// with affine coefficients is put there. So `branch` may be asked of it.
pub fn programs_have_unknowns()
    ensures { ProgramsHaveUnknowns }
{}
