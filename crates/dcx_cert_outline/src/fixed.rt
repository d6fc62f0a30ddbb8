//! Which nodes of a problem have no variable below them.
ghost use Rattle.std.specs.Prelude.{◌≡◌, ◌<◌, false, length, IfOk, slice_index_or};
ghost use Rattle.std.specs.List.{list_all};
ghost use Rattle.dcx_cert_outline.specs.Drawn.{fixed_call, AreFixed};

use dcx_tree::{Call, NodeId, Problem};
use std::alloc::{AllocError, Global};

/// What is marked at a node, and nothing past the last mark.
fn is_marked(marks: &[bool], node: NodeId) -> bool
    ensures { result ≡ slice_index_or marks.now node.0 false }
{
    marks.get(node.0 as usize).copied().unwrap_or(false)
}

/// Whether all of these nodes are marked.
fn are_marked(marks: &[bool], nodes: &[NodeId]) -> bool
    ensures { result ≡ list_all (λ a. slice_index_or marks.now a.0 false) nodes.now }
{
    nodes.iter().all(|node| is_marked(marks, *node))
}

/// Whether a call has no variable below it, where it is told whether its arguments all have none.
fn is_fixed(call: &Call, args: bool) -> bool
    ensures { result ≡ fixed_call call.now args }
{
    match call {
        Call::Variable(_) => false,
        Call::Parameter(_) | Call::Constant(_) => true,
        Call::Atom(_) | Call::Linear(_) | Call::Pairing(_) => args,
    }
}

/// Which nodes of a problem have no variable below them. Fails only for want of memory.
pub fn fixed_nodes(alloc: Global, problem: &Problem) -> Result<Vec<bool>, AllocError>
    ensures { IfOk result (λ v. AreFixed problem.now v.items (length problem.now.tree)) }
{
    let mut marks = Vec::new(alloc);
    'nodes: for i in 0..problem.tree.nodes() {
        let args = problem.tree.args(alloc, NodeId(i))?;
        let mark = is_fixed(problem.tree.call(NodeId(i)), are_marked(&marks, &args));
        marks.push(mark)?;
    }
    Ok(marks)
}
