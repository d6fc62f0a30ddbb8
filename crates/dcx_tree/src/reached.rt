//! The nodes that roots reach.
ghost use Rattle.std.specs.Prelude.{◌≡◌, ◌↔◌, ◌⊎◌, ℕ, ◌<◌, true, length, All, IfOk, OnOk};
ghost use Rattle.dcx_arena.specs.Nodes.{AreNodes, positions, args_at};
ghost use Rattle.dcx_arena.specs.Gather.{has};
ghost use Rattle.dcx_arena.specs.Unfold.{IsReached};
ghost use Rattle.dcx_call.specs.Calls.{shape_of};
ghost use Rattle.dcx_tree.specs.Values.{IsMarked};

use crate::tree::Tree;
use dcx_arena::NodeId;
use std::alloc::{AllocError, Global};

/// Marks these nodes.
fn mark_all(ids: &[NodeId], marks: &mut Vec<bool>)
    requires { All (λ a. a < length marks.old.items) (positions ids.now) }
    ensures count { length marks.new.items ≡ length marks.old.items }
    ensures marked { (i : ℕ) → IsMarked marks.new.items i ↔ (IsMarked marks.old.items i ⊎ (has (positions ids.now) i ≡ true)) }
{
    for a in ids {
        marks[a.0 as usize] = true;
    }
}

/// Marks the arguments of a node that is marked.
fn mark_args(
    alloc: Global,
    tree: &Tree,
    node: NodeId,
    marks: &mut Vec<bool>,
) -> Result<(), AllocError>
    requires there { node.0 < length tree.now }
    requires room { node.0 < length marks.old.items }
    requires below { All (λ a. a < length marks.old.items) (args_at tree.now node.0) }
    ensures count { length marks.new.items ≡ length marks.old.items }
    ensures marked { OnOk result ((i : ℕ) → IsMarked marks.new.items i ↔ (IsMarked marks.old.items i ⊎ (IsMarked marks.old.items node.0 × (has (args_at tree.now node.0) i ≡ true)))) }
{
    if !marks[node.0 as usize] {
        return Ok(());
    }
    let args = tree.args(alloc, node)?;
    mark_all(&args, marks);
    Ok(())
}

/// For each node, by its place, whether the roots reach it. A root reaches itself. `AllocError` where there is no memory.
pub fn reached_from(alloc: Global, tree: &Tree, roots: &[NodeId]) -> Result<Vec<bool>, AllocError>
    requires { All (λ r. r < length tree.now) (positions roots.now) }
    ensures nodes { OnOk result (AreNodes shape_of tree.now) }
    ensures count { IfOk result (λ m. length m.items ≡ length tree.now) }
    ensures marked { IfOk result (λ m. (i : ℕ) → IsMarked m.items i ↔ IsReached tree.now (positions roots.now) i) }
{
    let count = tree.nodes();
    let mut marks = vec![in alloc; false; count as usize]?;
    mark_all(roots, &mut marks);
    for k in 0..count {
        mark_args(alloc, tree, NodeId(count - 1 - k), &mut marks)?;
    }
    Ok(marks)
}
