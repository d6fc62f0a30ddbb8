//! The laws above the definitions of `specs/`. There is no code: each clause is a statement about all problems.
ghost use Rattle.dcx_cert_complete.specs.Laws.{AtomsHaveDualGraphs, BoundsFailWide, BuiltIsCertified, FormsBoundPrograms, SessionProgramsHaveForms, UnboundedGoesByRays};

/// Of each nonlinear call the slopes are those of the weighted rows of its graph; weights that let no unknown lower coefficients times
/// results meet the conditions of slopes, and these are fractions of 128 bits where no step stops.
pub fn atoms_have_dual_graphs()
    ensures { AtomsHaveDualGraphs }
{}

/// Where multipliers and weights bound the program of an accepted problem at a setting that fits, the bound checks pass, or an operation
/// passes 128 bits.
pub fn bounds_fail_wide()
    ensures { BoundsFailWide }
{}

/// Where a program's forms meet the equations of the nodes, and the multipliers of its rows are the weights, what bounds the program at
/// all unknowns of their kinds bounds it at all points and unknowns of the graphs.
pub fn forms_bound_programs()
    ensures { FormsBoundPrograms }
{}

/// The program that a session solves at a setting that fits is the linear program of forms that meet the equations of the nodes; its rows
/// come from the constraints, and then from the graphs of the nodes that are reduced.
pub fn session_programs_have_forms()
    ensures { SessionProgramsHaveForms }
{}

/// Along a ray by which an accepted problem is unbounded the steepness of both sides of each constraint keeps the constraint, and that of
/// the minimized objective is at most minus the slope.
pub fn unbounded_goes_by_rays()
    ensures { UnboundedGoesByRays }
{}

/// The certificate that is built of an answer is accepted, or an operation passes 128 bits: its checks fail with nothing else. This holds
/// of each answer that is right for the rows of a program of the problem, that of a session or that of a setting's numbers; so of what a
/// session answers, and of what it answers from the columns that it keeps.
pub fn built_is_certified()
    ensures { BuiltIsCertified }
{}
