//! What stands for a node is given back behind its last use.
ghost use Rattle.std.specs.Prelude.{◌≡◌, ◌<◌, [], length};
ghost use Rattle.std.specs.List.{All};
ghost use Rattle.dcx_arena.specs.Nodes.{positions};
ghost use Rattle.dcx_entries.specs.declared.standing.Standing.TheVariants.{Forms};
ghost use Rattle.dcx_nodes.specs.Uses.{IsGivenBack};

use dcx_entries::{EntryList, Standing};
use dcx_linear::Coef;
use dcx_tree::NodeId;
use std::alloc::Global;

/// Gives back what stands for a node, and leaves an empty list.
fn give_back<C: Coef>(alloc: Global, standing: &mut Standing<C>)
    ensures { standing.new ≡ Forms [] }
{
    *standing = Standing::Forms(EntryList::new(alloc));
}

/// Gives back what stands for those of these nodes that are last asked for by `node`.
pub(crate) fn give_back_last<C: Coef>(
    alloc: Global,
    standing: &mut [Standing<C>],
    ids: &[NodeId],
    uses: &[u32],
    node: NodeId,
)
    requires standing { All (λ a. a < length standing.old) (positions ids.now) }
    requires uses { All (λ a. a < length uses.now) (positions ids.now) }
    ensures { IsGivenBack uses.now node.0 (positions ids.now) standing.old standing.new }
{
    'ids: for id in ids {
        let place = id.0 as usize;
        if uses[place] == node.0 {
            give_back(alloc, &mut standing[place]);
        }
    }
}
