//! The laws above the definitions of `specs/`. There is no code: each clause is a statement about all trees or problems.
ghost use Rattle.dcx_convex.specs.Nodes.{Setting};
ghost use Rattle.dcx_tree.specs.declared.problem.Problem.{Problem};
ghost use Rattle.dcx_tree.specs.Laws.{TreesAreLawful, ValuesUnfold, SignsAreTrue, AcceptedIsConvex, AnswersAgree, GatheringKeepsValues};

/// The nodes of a tree keep what disciplined convex programming asks for: arguments stand before their call, and each call
/// keeps the laws of calls.
pub fn trees_are_lawful()
    ensures { TreesAreLawful }
{}

/// The value of a node is that of the finite tree to which its arguments unfold.
pub fn values_unfold()
    ensures { ValuesUnfold }
{}

/// The sign of a node is true of its value, at every fitting setting and every point of the domain.
pub fn signs_are_true()
    ensures { SignsAreTrue }
{}

/// An accepted problem is convex at every fitting setting.
pub fn accepted_is_convex()
    ensures { AcceptedIsConvex }
{}

/// At one setting no two kinds of answers hold together, and two optimal answers have one value.
pub fn answers_agree()
    ensures { (p : Problem) (s : Setting) → AnswersAgree p s }
{}

/// Where a problem is gathered, each root has the value that it has in the source, at every setting and point of arrays.
pub fn gathering_keeps_values()
    ensures { GatheringKeepsValues }
{}
