//! Which nodes are reduced, and which reach no variable.
ghost use Rattle.std.specs.Prelude.{◌≡◌, ◌<◌, length, IfOk};
ghost use Rattle.dcx_convex.specs.Rules.{Rules};
ghost use Rattle.dcx_unknowns.specs.Layout.{is_reduced, AreReduced};
ghost use Rattle.dcx_rules.specs.Verdicts.{IsVerdictOf};
ghost use Rattle.dcx_postsolve.specs.Fixed.{is_fixed};
ghost use Rattle.dcx_nodes.specs.Marks.{AreFixed};
ghost use Rattle.dcx_graph.specs.Marks.{are_affine};

use dcx_rules::Verdict;
use dcx_tree::{NodeId, Problem};
use std::alloc::{AllocError, Global};

/// Whether a node is reduced, where parameters are numbers or where they are affine.
fn is_reduced(problem: &Problem, verdict: &Verdict, affine: bool, node: NodeId) -> bool
    requires verdict { IsVerdictOf problem.now verdict.now }
    requires there { node.0 < length problem.now.tree }
    ensures { (rules : Rules) → affine ≡ are_affine rules → result ≡ is_reduced rules problem.now node.0 }
{
    if affine {
        !verdict.is_dpp_constant(node)
    } else {
        verdict.reaches_variable(node)
    }
}

/// Which nodes of a problem are reduced, where parameters are numbers or where they are affine.
pub(crate) fn reduced_nodes(
    alloc: Global,
    problem: &Problem,
    verdict: &Verdict,
    affine: bool,
) -> Result<Vec<bool>, AllocError>
    requires { IsVerdictOf problem.now verdict.now }
    ensures count { IfOk result (λ v. length v.items ≡ length problem.now.tree) }
    ensures marks { IfOk result (λ v. (rules : Rules) → affine ≡ are_affine rules → AreReduced rules problem.now v.items) }
{
    let mut marks = Vec::new(alloc);
    'nodes: for i in 0..problem.tree.nodes() {
        marks.push(is_reduced(problem, verdict, affine, NodeId(i)))?;
    }
    Ok(marks)
}

/// Whether a node reaches no variable.
fn is_fixed(problem: &Problem, verdict: &Verdict, node: NodeId) -> bool
    requires verdict { IsVerdictOf problem.now verdict.now }
    requires there { node.0 < length problem.now.tree }
    ensures { result ≡ is_fixed problem.now node.0 }
{
    !verdict.reaches_variable(node)
}

/// Which nodes of a problem reach no variable.
pub(crate) fn fixed_nodes(
    alloc: Global,
    problem: &Problem,
    verdict: &Verdict,
) -> Result<Vec<bool>, AllocError>
    requires { IsVerdictOf problem.now verdict.now }
    ensures count { IfOk result (λ v. length v.items ≡ length problem.now.tree) }
    ensures marks { IfOk result (λ v. AreFixed problem.now v.items) }
{
    let mut marks = Vec::new(alloc);
    'nodes: for i in 0..problem.tree.nodes() {
        marks.push(is_fixed(problem, verdict, NodeId(i)))?;
    }
    Ok(marks)
}
