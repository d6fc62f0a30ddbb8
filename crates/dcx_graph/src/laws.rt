//! Laws of the program of a problem. Each function is a law: its clause is a statement about all of them, and the body is
//! empty.
ghost use Rattle.std.specs.Prelude.{◌≡◌, ℕ, length, Result};
ghost use Rattle.dcx_frac.specs.declared.fraction.Frac.{Frac};
ghost use Rattle.dcx_frac.specs.declared.fraction.Passes.{Passes};
ghost use Rattle.dcx_point.specs.Pairs.{Pairs};
ghost use Rattle.dcx_convex.specs.Rules.{Rules};
ghost use Rattle.dcx_tree.specs.declared.problem.Problem.{Problem};
ghost use Rattle.dcx_linear.specs.declared.param_form.ParamForm.{ParamForm};
ghost use Rattle.dcx_unknowns.specs.Layout.{is_reduced, rows_counted, row_count};
ghost use Rattle.dcx_entries.specs.Nodes.{Table, AreFormed};
ghost use Rattle.dcx_entries.specs.Kept.{graph_rows};
ghost use Rattle.dcx_graph.specs.Program.{Program, IsProgram, GivesProgram};
ghost use Rattle.dcx_graph.specs.Fixing.{FixGives};
ghost use Rattle.dcx_graph.specs.AsLinear.{ProgramsAreReductions};
ghost use Rattle.dcx_graph.specs.Answers.{ReadingsAreOne};
ghost use Rattle.dcx_graph.specs.Backward.{AnswersCarryOver};
ghost use Rattle.dcx_graph.specs.Correct.{ReducesNumbers, ReducesAffine, NumbersAreReductions, AffineAreReductions, AffineAreKnown, IsOneAnswer};
ghost use Rattle.dcx_graph.specs.Fixed.{ProgramsAreKnown, KnownAreListed, FixedAreReductions};

use dcx_linear::Coef;

/// A problem whose nodes are formed has one program, or one operation that passes first, at one row.
pub fn one_program<C: Coef>()
    ensures { (rules : Rules) (p : Problem) (table : Table C) (r s : Result (Program C) (ℕ × Passes)) → GivesProgram C.of_number C.number_of C.sum_gives C.change_gives rules p table r
        → GivesProgram C.of_number C.number_of C.sum_gives C.change_gives rules p table s → r ≡ s }
{}

/// Formed nodes have as many rows as the layout of the program counts, and so has the program.
pub fn rows_are_counted<C: Coef>()
    ensures graph { (rules : Rules) (p : Problem) (setting : Pairs) (table : Table C)
        → AreFormed C.of_number C.number_of C.sum_gives C.change_gives C.parameter_gives rules p setting (length p.tree) table
        → length (graph_rows C.of_number table) ≡ rows_counted p.tree (is_reduced rules p) (length p.tree) }
    ensures program { (rules : Rules) (p : Problem) (setting : Pairs) (table : Table C) (q : Program C)
        → AreFormed C.of_number C.number_of C.sum_gives C.change_gives C.parameter_gives rules p setting (length p.tree) table
        → IsProgram C.of_number C.number_of C.sum_gives C.change_gives rules p table q → length q.rows ≡ row_count rules p }
{}

/// A program with affine coefficients has one program at a setting, or one operation that passes first, at one row.
pub fn one_program_at_setting()
    ensures { (setting : Pairs) (q : Program ParamForm) (r s : Result (Program Frac) (ℕ × Passes)) → FixGives setting q r → FixGives setting q s → r ≡ s }
{}

/// The program of nodes whose forms and rows are a reduced program is the linear program of that one: its rows are those of the
/// constraints, entry by entry, and then those of the graphs.
pub fn programs_are_reductions<C: Coef>()
    ensures { ProgramsAreReductions C.value_at C.of_number C.number_of C.sum_gives C.change_gives }
{}

/// Where the rules accept a problem and the setting fits, a right answer of the linear program of a reduced program of the problem
/// is an answer of the problem.
pub fn answers_carry_over()
    ensures { AnswersCarryOver }
{}

/// Where each entry that a program lists is one of a declared parameter, a setting with an array for each parameter has them all.
pub fn known_are_listed()
    ensures { KnownAreListed }
{}

/// A program at a setting is a reduced program of the problem there, if it was one with the setting's numbers.
pub fn fixed_are_reductions()
    ensures { FixedAreReductions }
{}

/// The program of nodes that are formed with affine coefficients lists entries of declared parameters alone.
pub fn programs_are_known()
    ensures { ProgramsAreKnown }
{}

/// Where the rules accept a problem, the program with numbers that reducing gives
/// is a reduced program of the problem at the setting.
pub fn numbers_are_reductions()
    ensures { NumbersAreReductions }
{}

/// Where the rules accept it with parameters affine, the program with affine coefficients that reducing gives is a reduced program
/// of the problem at every setting.
pub fn affine_are_reductions()
    ensures { AffineAreReductions }
{}

/// It lists entries of declared parameters alone.
pub fn affine_are_known()
    ensures { AffineAreKnown }
{}

/// A problem is reduced in one way: to one program, or to one stop at one place.
pub fn one_reduction()
    ensures numbers { (p : Problem) (setting : Pairs) → IsOneAnswer (ReducesNumbers p setting) }
    ensures affine { (p : Problem) (setting : Pairs) → IsOneAnswer (ReducesAffine p setting) }
{}

/// One thing is read from an answer of the rows: one answer, but for what its arrays hold past their ends, or one multiplier that
/// passes 128 bits first.
pub fn readings_are_one()
    ensures { ReadingsAreOne }
{}
