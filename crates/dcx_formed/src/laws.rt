//! The laws above the definitions of `specs/`. There is no code: each clause is a statement about all problems.
ghost use Rattle.dcx_formed.specs.Laws.{FracsMeetEquations, ParamFormsMeetEquations, FormsAreNarrow, FormsAreKnown};

use dcx_linear::Coef;

/// Nodes of an accepted problem that are formed of fractions at a setting: their forms meet the equation of each node at that
/// setting, their rows are the rows of the graphs, and so both are a reduced program of the problem at the setting.
pub fn fracs_meet_equations()
    ensures { FracsMeetEquations }
{}

/// Nodes of a problem that is accepted where parameters are affine, formed of affine numbers: the same at every setting.
pub fn param_forms_meet_equations()
    ensures { ParamFormsMeetEquations }
{}

/// The forms and rows of formed nodes speak of unknowns of the layout alone.
pub fn forms_are_narrow<C: Coef>()
    ensures { FormsAreNarrow C.of_number C.number_of C.sum_gives C.change_gives C.parameter_gives }
{}

/// Where parameters are affine, they speak of entries of the declared parameters alone, each under its name.
pub fn forms_are_known()
    ensures { FormsAreKnown }
{}
