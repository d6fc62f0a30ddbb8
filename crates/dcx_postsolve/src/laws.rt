//! The laws above the definitions of `specs/`. There is no code: each clause is a statement about all programs or problems.
ghost use Rattle.dcx_postsolve.specs.Laws.{ColumnsAreUnknowns, ArraysArePoints, DualsAreOne, DualsAreMultipliers, DualsAreRight, AlikePointsHaveValues, AnswersStay};
ghost use Rattle.dcx_postsolve.specs.CarryingLaws.{ProgramsCarryOver};

/// A scaled program that is made of rows has the columns of all its unknowns in front. What is read from the numbers of
/// columns are the unknowns that the columns stand for; it may be read where of the two columns of each free unknown one at
/// least is 0.
pub fn columns_are_unknowns()
    ensures { ColumnsAreUnknowns }
{}

/// The point of the arrays of unknowns has the entries of the point of the unknowns.
pub fn arrays_are_points()
    ensures { ArraysArePoints }
{}

/// There is one list of multipliers of constraints, or none and one first multiplier that passes 128 bits.
pub fn duals_are_one()
    ensures { DualsAreOne }
{}

/// Each entry of the array of a constraint is the multiplier of its row.
pub fn duals_are_multipliers()
    ensures { DualsAreMultipliers }
{}

/// Where a program has slacks for the inequalities among the rows of the constraints, and for no others, each entry is the
/// multiplier by which the answer is right for the program.
pub fn duals_are_right()
    ensures { DualsAreRight }
{}

/// Points that have the same entries of the variables have the same values at all nodes, at every setting.
pub fn alike_points_have_values()
    ensures { AlikePointsHaveValues }
{}

/// An answer stays one at points that have the same entries of the variables, and at multipliers that are the same at the
/// entries of the constraints.
pub fn answers_stay()
    ensures { AnswersStay }
{}

/// An answer that is right for the linear program of a reduced program is right for the reduced program: with the multipliers
/// of the rows of constraints as those of the constraints, entry by entry, and those of the other rows as weights.
pub fn answers_carry_over()
    ensures { ProgramsCarryOver }
{}
