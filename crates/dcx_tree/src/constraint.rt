//! What a problem asks: its sense and its constraints.
ghost use Rattle.std.specs.Prelude.{MatchBool};
ghost use Rattle.dcx_math.specs.Rational.{◌-ℚ◌};
ghost use Rattle.dcx_frac.specs.Frac.{value};
ghost use Rattle.dcx_convex.specs.Problems.{Holds};
ghost use Rattle.dcx_tree.specs.Meaning.{relation_of};

use dcx_arena::NodeId;
use dcx_atom::{is_at_most, is_equal};
use dcx_frac::Frac;
use dcx_shape::{Place, Shape};

/// What is asked of the objective.
#[derive(Clone, Copy)]
pub enum Sense {
    /// The least value.
    Minimize,
    /// The greatest value.
    Maximize,
}

/// How the two sides of a constraint stand to each other, entry by entry.
#[derive(Clone, Copy)]
pub enum Kind {
    /// Left is at most right.
    AtMost,
    /// Left is right.
    Equal,
}

impl Kind {
    /// Whether two numbers stand to each other as asked.
    pub fn holds(self, left: &Frac, right: &Frac) -> bool
        ensures { MatchBool result (Holds (relation_of self) (value left.now -ℚ value right.now)) (¬ Holds (relation_of self) (value left.now -ℚ value right.now)) }
    {
        match self {
            Kind::AtMost => is_at_most(left, right),
            Kind::Equal => is_equal(left, right),
        }
    }
}

/// A demand on two nodes of one shape. `a >= b` has `b` on the left.
#[derive(Clone, Copy)]
pub struct Constraint {
    /// How the sides stand to each other.
    pub kind: Kind,
    /// The node on the left.
    pub left: NodeId,
    /// The node on the right.
    pub right: NodeId,
    /// The shape of both sides.
    pub shape: Shape,
    /// Where the constraint stands in the script.
    pub place: Place,
}
