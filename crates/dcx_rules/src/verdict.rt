//! What is found of an accepted problem.
ghost use Rattle.std.specs.Prelude.{◌≡◌, ◌<◌, ◌&&◌, Some, length, option_map, slice_get};

use crate::curvature::Curvature;
use crate::judgement::Judgement;
use dcx_atom::Sign;
use dcx_tree::NodeId;
use std::marker::Model;

/// What is found of a node.
#[derive(Clone, Copy)]
pub struct Finding {
    pub sign: Sign,
    pub curvature: Curvature,
    pub reaches_variable: bool,
    pub reaches_parameter: bool,
}

/// The signs and curvatures of the nodes of an accepted problem, what the rules say of each node where parameters are
/// affine, and whether the problem is accepted also then.
#[derive(Drop)]
pub struct Verdict {
    nodes: Vec<Finding>,
    parametrized: Vec<Judgement>,
    dpp: bool,
}

impl Model for Verdict {
    ghost use Rattle.dcx_rules.specs.Verdicts.{Findings};

    ghost Value = { Findings };

    ghost view = { λ v. record { nodes = v.nodes.items; parametrized = v.parametrized.items; dpp = v.dpp } };
}

impl Verdict {
    /// The verdict with these findings and these judgements where parameters are affine, node by node. Takes no memory.
    pub(crate) fn of(nodes: Vec<Finding>, parametrized: Vec<Judgement>, dpp: bool) -> Verdict
        ensures { result ≡ record { nodes = nodes.items; parametrized = parametrized.items; dpp = dpp } }
    {
        Verdict {
            nodes,
            parametrized,
            dpp,
        }
    }

    /// What is known of the sign of a node's value.
    pub fn sign(&self, node: NodeId) -> Sign
        requires { node.0 < length self.now.nodes }
        ensures { option_map (λ n. n.sign) (slice_get self.now.nodes node.0) ≡ Some result }
    {
        self.nodes[node.0 as usize].sign
    }

    /// The curvature of a node.
    pub fn curvature(&self, node: NodeId) -> Curvature
        requires { node.0 < length self.now.nodes }
        ensures { option_map (λ n. n.curvature) (slice_get self.now.nodes node.0) ≡ Some result }
    {
        self.nodes[node.0 as usize].curvature
    }

    /// Whether a node reaches a variable. Takes no memory.
    pub fn reaches_variable(&self, node: NodeId) -> bool
        requires { node.0 < length self.now.nodes }
        ensures { option_map (λ n. n.reaches_variable) (slice_get self.now.nodes node.0) ≡ Some result }
    {
        self.nodes[node.0 as usize].reaches_variable
    }

    /// Whether a node counts as a number where parameters are affine: it reaches neither a variable nor a parameter. Takes
    /// no memory.
    pub fn is_dpp_constant(&self, node: NodeId) -> bool
        requires { node.0 < length self.now.parametrized }
        ensures { option_map (λ g. g.fixed && g.unparametrized) (slice_get self.now.parametrized node.0) ≡ Some result }
    {
        let judgement = self.parametrized[node.0 as usize];
        judgement.fixed && judgement.unparametrized
    }

    /// Whether the problem is accepted also where parameters are affine.
    pub fn dpp(&self) -> bool
        ensures { result ≡ self.now.dpp }
    {
        self.dpp
    }
}
