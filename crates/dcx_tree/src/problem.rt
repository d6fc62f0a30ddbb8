//! A problem: what is asked of the expressions of a tree.
ghost use Rattle.dcx_arena.specs.Nodes.{AreNodes};
ghost use Rattle.dcx_call.specs.Attributes.{AreSquare};
ghost use Rattle.dcx_call.specs.Calls.{shape_of};
ghost use Rattle.dcx_tree.specs.Kept.{AreNodes-prop, AreSquare-prop};
ghost use Rattle.dcx_tree.specs.Problems.{IsObjective, AreConstraints, IsNumbered, AreDeclared};

use crate::constraint::Sense;
use crate::lists::{Constraints, Parameters, Variables};
use crate::tree::Tree;
use dcx_arena::NodeId;
use dcx_shape::Place;

/// An objective over a domain, under constraints. Its symmetric and diagonal variables are square matrices.
#[derive(Drop)]
pub struct Problem {
    /// The expressions that the problem reaches.
    pub tree: Tree,
    /// The variables that it reaches, in order of declaration.
    pub variables: Variables,
    /// The parameters that it reaches, in order of declaration.
    pub parameters: Parameters,
    /// Whether the objective is minimized or maximized.
    pub sense: Sense,
    /// The node of the objective, which has one entry.
    pub objective: NodeId,
    /// Where the objective stands in the script.
    pub objective_place: Place,
    /// The constraints, fewer than 2^32.
    pub constraints: Constraints,
    pub ghost nodes: { AreNodes shape_of tree } by { AreNodes-prop tree },
    pub ghost objective_kept: { IsObjective tree objective },
    pub ghost constraints_kept: { AreConstraints tree constraints },
    pub ghost numbered: { IsNumbered tree objective constraints },
    pub ghost declared: { ∥ AreDeclared tree variables parameters ∥₁ },
    pub ghost squares: { AreSquare variables } by { AreSquare-prop variables },
}
