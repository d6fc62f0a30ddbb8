//! The curvature of a node.
ghost use Rattle.std.specs.Prelude.{◌≡◌};
ghost use Rattle.dcx_rules.specs.Judgements.{judgement_of};
ghost use Rattle.dcx_rules.specs.Curvatures.{curvature_of};

use crate::judgement::Judgement;

/// What is known of a node's value over the points.
#[derive(Clone, Copy)]
pub enum Curvature {
    /// It reaches no variable.
    Constant,
    /// It is convex and concave.
    Affine,
    /// It is convex.
    Convex,
    /// It is concave.
    Concave,
}

/// The curvature that a judgement tells, if it tells one.
pub fn curvature_of(judgement: Judgement) -> Option<Curvature>
    ensures { result ≡ curvature_of (judgement_of judgement) }
{
    if judgement.fixed {
        return Some(Curvature::Constant);
    }
    match (judgement.convex, judgement.concave) {
        (true, true) => Some(Curvature::Affine),
        (true, false) => Some(Curvature::Convex),
        (false, true) => Some(Curvature::Concave),
        (false, false) => None,
    }
}
