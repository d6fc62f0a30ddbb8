//! The laws above the definitions of `specs/`. There is no code: each clause is a statement about all problems.
ghost use Rattle.dcx_convex.specs.Nodes.{Setting};
ghost use Rattle.dcx_convex.specs.Problems.{Problem};
ghost use Rattle.dcx_convex.specs.Laws.{
  CallsAreLawful,
  NodesAreTold,
  SignsAreTrue,
  AcceptedIsConvex,
  AnswersAgree,
  DppIsAccepted,
  ConstantsAreFixed,
  ReachedAreBent,
  FormsAreBeyond,
  ReductionsMapBack,
  CertifiedIsAnswered,
  RenumberingChangesNothing,
  PushingChangesNothing,
  TestedAreInDualCone,
};
ghost use Rattle.dcx_convex.specs.Examples.{Verdicts, LeastAbs};

/// Nonlinear calls, linear calls, products and quotients keep the laws of calls.
pub fn calls_are_lawful()
    ensures { CallsAreLawful }
{}

/// Where arguments stand before their nodes, the value and the judgement of each node are what its rule tells from those of
/// its arguments, and nothing else is.
pub fn nodes_are_told()
    ensures { NodesAreTold }
{}

/// Nodes under new positions have the same values and judgements.
pub fn renumbering_changes_nothing()
    ensures { RenumberingChangesNothing }
{}

/// A node that is added at the end changes no earlier one.
pub fn pushing_changes_nothing()
    ensures { PushingChangesNothing }
{}

/// The sign of a node is true of its value, at every fitting setting and every point of the domain.
pub fn signs_are_true()
    ensures { SignsAreTrue }
{}

/// An accepted problem is convex at every fitting setting.
pub fn accepted_is_convex()
    ensures { AcceptedIsConvex }
{}

/// At one setting no two kinds of answers hold together, and two optimal answers have one value.
pub fn answers_agree()
    ensures { (p : Problem) (s : Setting) → AnswersAgree p s }
{}

/// What the rules accept where parameters are affine, they accept where parameters are numbers.
pub fn dpp_is_accepted()
    ensures { DppIsAccepted }
{}

/// A node that reaches no variable has one value at all points.
pub fn constants_are_fixed()
    ensures { ConstantsAreFixed }
{}

/// In an accepted problem each node that is reached is convex or concave, as the rules say.
pub fn reached_are_bent()
    ensures { ReachedAreBent }
{}

/// Where forms stand for the nodes, that of a convex node is at least its value, and that of a concave node at most.
pub fn forms_are_beyond()
    ensures { FormsAreBeyond }
{}

/// An answer that is right for a reduced program of an accepted problem is one of the problem.
pub fn reductions_map_back()
    ensures { ReductionsMapBack }
{}

/// What a certificate shows: an optimal answer, or that no point is feasible.
pub fn certified_is_answered()
    ensures { CertifiedIsAnswered }
{}

/// Coefficients that pass the test for a variable are in the dual cone of its attribute.
pub fn tested_are_in_dual_cone()
    ensures { TestedAreInDualCone }
{}

/// The verdicts of small problems, by computation.
pub fn verdicts()
    ensures { Verdicts }
{}

/// The least abs(x) is 0: by its reduced program, whose answer maps back.
pub fn least_abs()
    ensures { (s : Setting) → LeastAbs s }
{}
