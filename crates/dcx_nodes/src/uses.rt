//! Where what stands for each node is last asked for.
ghost use Rattle.std.specs.Prelude.{◌≡◌, ◌<◌, length, IfOk};
ghost use Rattle.std.specs.List.{All};
ghost use Rattle.dcx_arena.specs.Nodes.{positions};
ghost use Rattle.dcx_tree.specs.Problems.{roots_of};
ghost use Rattle.dcx_nodes.specs.Uses.{IsPut, AreLastUses};

use dcx_tree::{NodeId, Problem};
use std::alloc::{AllocError, Global};

/// Puts a place as the last use of each of these nodes.
fn put_last(uses: &mut [u32], ids: &[NodeId], place: u32)
    requires { All (λ a. a < length uses.old) (positions ids.now) }
    ensures { IsPut (positions ids.now) place uses.old uses.new }
{
    'ids: for id in ids {
        uses[id.0 as usize] = place;
    }
}

/// Puts a place as the last use of the objective and of both sides of each constraint.
fn put_roots(uses: &mut [u32], problem: &Problem, place: u32)
    requires { length uses.old ≡ length problem.now.tree }
    ensures { IsPut (roots_of problem.now.objective problem.now.constraints) place uses.old uses.new }
{
    put_last(uses, &[problem.objective], place);
    'constraints: for constraint in problem.constraints.as_slice() {
        put_last(uses, &[constraint.left, constraint.right], place);
    }
}

/// The last use of each node: the last node that takes it, or the number of all nodes where the problem begins with it.
pub(crate) fn last_uses(alloc: Global, problem: &Problem) -> Result<Vec<u32>, AllocError>
    ensures { IfOk result (λ v. AreLastUses problem.now v.items) }
{
    let nodes = problem.tree.nodes();
    let mut uses = vec![in alloc; 0u32; nodes as usize]?;
    'nodes: for node in 0..nodes {
        let ids = problem.tree.args(alloc, NodeId(node))?;
        put_last(&mut uses, &ids, node);
    }
    put_roots(&mut uses, problem, nodes);
    Ok(uses)
}
