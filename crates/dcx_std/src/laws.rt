//! What the scaled program of rows has to do with the rows.
//!
//! Each function is a law: its clause is a statement about all rows, and the body is empty.
ghost use Rattle.std.specs.Prelude.{◌≡◌, ℕ, ◌<◌, List, length};
ghost use Rattle.dcx_math.specs.Rational.{ℚ};
ghost use Rattle.dcx_linear.specs.FormTerms.{Unknowns};
ghost use Rattle.dcx_linear.specs.Rows.{IsSolution as SolvesRows};
ghost use Rattle.dcx_tab.specs.declared.program.Program.{Program};
ghost use Rattle.dcx_lp_answer.specs.declared.answer.LpAnswer.{LpAnswer};
ghost use Rattle.dcx_lp_answer.specs.Right.{IsSolution, IsRight, cost_at_columns};
ghost use Rattle.dcx_std.specs.GivenRows.{GivenRows};
ghost use Rattle.dcx_std.specs.IntegerRows.{IsMade};
ghost use Rattle.dcx_std.specs.OneProgram.{ProgramsAreOne, MadeOrStopped, StopsAreOne};
ghost use Rattle.dcx_std.specs.ScaledProgram.{IsScaledProgram};
ghost use Rattle.dcx_std.specs.Solutions.{HasKinds, linear_program, unknowns_at, form_number};
ghost use Rattle.dcx_std.specs.Answers.{IsRightForRows};

/// Each row of the program that is made is a row of fractions times its factor, and the objective row times the entry of z.
pub fn rows_are_scaled()
    ensures { (rows : GivenRows) (q : Program) → IsMade rows q → IsScaledProgram rows q }
{}

/// Columns that solve the program stand for unknowns that solve the rows, a free one for the difference of its two columns.
pub fn solutions_carry_over()
    ensures { (rows : GivenRows) (q : Program) (zs : List ℚ) → HasKinds rows → IsScaledProgram rows q → IsSolution q zs → SolvesRows (linear_program rows) (unknowns_at q.columns zs) }
{}

/// The cost at columns, which the objective row gives z, is the objective at the unknowns that they stand for.
pub fn objective_carries_over()
    ensures { (rows : GivenRows) (q : Program) (zs : List ℚ) → HasKinds rows → IsScaledProgram rows q → cost_at_columns q.objective zs ≡ form_number rows.objective (unknowns_at q.columns zs) }
{}

/// Unknowns that solve the rows are those of columns that solve the program, at a cost that is the objective.
pub fn solutions_come_from_columns()
    ensures { (rows : GivenRows) (q : Program) (x : Unknowns) → HasKinds rows → IsScaledProgram rows q → SolvesRows (linear_program rows) x
        → (zs : List ℚ) × IsSolution q zs × ((u : ℕ) → u < length rows.kinds → unknowns_at q.columns zs u ≡ x u) × (cost_at_columns q.objective zs ≡ form_number rows.objective x) }
{}

/// An answer that is right for the program is right for the rows: with the unknowns that the columns stand for, and the
/// multipliers times the factors of the rows, turned where an equality was negated.
pub fn right_answers_carry_over()
    ensures { (rows : GivenRows) (q : Program) (a : LpAnswer) → HasKinds rows → IsMade rows q → IsRight q a → IsRightForRows rows q a }
{}

/// Rows have one scaled program.
pub fn programs_are_one()
    ensures { ProgramsAreOne }
{}

/// Rows that have a scaled program have no stop but want of memory.
pub fn made_or_stopped()
    ensures { MadeOrStopped }
{}

/// Rows have one stop, want of memory aside.
pub fn stops_are_one()
    ensures { StopsAreOne }
{}
