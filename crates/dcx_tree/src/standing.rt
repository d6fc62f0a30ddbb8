//! Whether nodes of a tree may be what a problem begins with.
ghost use Rattle.std.specs.Prelude.{◌↔◌, IsTrue};
ghost use Rattle.dcx_shape.specs.Shape.{sides_of};
ghost use Rattle.dcx_tree.specs.Problems.{IsObjective, HasSides, IsConstraint, AreConstraints};

use crate::constraint::Constraint;
use crate::tree::Tree;
use dcx_arena::NodeId;
use dcx_shape::Shape;

/// The most constraints that a problem may have.
const MOST_CONSTRAINTS: usize = u32::MAX as usize;

impl Tree {
    /// Whether a node is there and has one entry, so that it may be an objective.
    pub fn is_objective(&self, node: NodeId) -> bool
        ensures { IsTrue result ↔ IsObjective self.now node }
    {
        node.0 < self.nodes() && self.shape(node).size() == 1
    }

    /// Whether a node is there and has this shape.
    fn has_shape(&self, node: NodeId, shape: Shape) -> bool
        ensures { IsTrue result ↔ HasSides self.now node (sides_of shape) }
    {
        node.0 < self.nodes() && self.shape(node).sides() == shape.sides()
    }

    /// Whether both sides of a constraint are there and have its shape.
    fn is_constraint(&self, constraint: &Constraint) -> bool
        ensures { IsTrue result ↔ IsConstraint self.now constraint.now }
    {
        self.has_shape(constraint.left, constraint.shape)
            && self.has_shape(constraint.right, constraint.shape)
    }

    /// Whether a problem may have these constraints: each is one of this tree, and there are fewer than 2^32.
    pub fn are_constraints(&self, constraints: &[Constraint]) -> bool
        ensures { IsTrue result ↔ AreConstraints self.now constraints.now }
    {
        if constraints.len() > MOST_CONSTRAINTS {
            return false;
        }
        for constraint in constraints {
            if !self.is_constraint(constraint) {
                return false;
            }
        }
        true
    }
}
