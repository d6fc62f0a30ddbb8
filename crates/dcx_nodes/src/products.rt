//! The entries of products and quotients that are reduced.
ghost use Rattle.std.specs.Prelude.{◌≡◌, ◌<◌, length, Some, IfOk};
ghost use Rattle.dcx_shape.specs.Sides.{entries_of};
ghost use Rattle.dcx_arena.specs.Nodes.{positions, call_at, args_at, sides_at};
ghost use Rattle.dcx_call.specs.declared.call.Call.TheVariants as calls;
ghost use Rattle.dcx_entries.specs.Forming.{IsFormed};
ghost use Rattle.dcx_entries.specs.Standing.{all_forms};
ghost use Rattle.dcx_nodes.specs.Formed.{ReducedGives};
ghost use Rattle.dcx_nodes.specs.Given.{IsReady};
ghost use Rattle.dcx_nodes.specs.Marks.{side_marked};

use crate::given::Given;
use dcx_affine::Pairing;
use dcx_atom::ValueStop;
use dcx_entries::{
    Arguments, EntryList, Side, Standing, have_numbers, pair_entries, pairing_scaling,
};
use dcx_linear::Coef;
use dcx_tree::NodeId;
use std::alloc::Global;

/// What is known of a node as a side of a product or a quotient.
fn side_at<C: Coef>(given: &Given, standing: &[Standing<C>], node: NodeId) -> Side
    requires reduced { node.0 < length given.now.reduced.now }
    requires fixed { node.0 < length given.now.fixed.now }
    requires before { node.0 < length standing.now }
    ensures { result ≡ side_marked C.number_of given.now.reduced.now given.now.fixed.now (all_forms C.of_number standing.now) node.0 }
{
    let place = node.0 as usize;
    Side {
        number: !given.reduced[place],
        fixed: given.fixed[place],
        numbers: have_numbers(&standing[place]),
    }
}

/// The entries of a product or a quotient.
///
/// `ZeroDivisor` or `Passes` at the first entry with a pair that is divided by 0, or with an operation that passes 128 bits.
pub(crate) fn pairing_node<C: Coef>(
    alloc: Global,
    given: &Given,
    node: NodeId,
    pairing: Pairing,
    args: &Arguments<C>,
) -> Result<EntryList<C>, ValueStop>
    requires ready { IsReady C.can_read given.now.problem.now given.now.reduced.now given.now.fixed.now given.now.setting.now given.now.firsts.now }
    requires call { call_at given.now.problem.now.tree node.0 ≡ Some (calls.Pairing pairing) }
    requires ids { positions args.now.ids.now ≡ args_at given.now.problem.now.tree node.0 }
    requires before { length args.now.standing.now ≡ node.0 }
    ensures count { IfOk result (λ es. length es ≡ entries_of (sides_at given.now.problem.now.tree node.0)) }
    ensures entries { IsFormed result (ReducedGives C.of_number C.number_of C.sum_gives C.change_gives C.parameter_gives
        given.now.problem.now given.now.setting.now given.now.reduced.now given.now.fixed.now (all_forms C.of_number args.now.standing.now) node.0) }
{
    let tree = &given.problem.tree;
    let ids = args.ids;
    let left = ids[0];
    let right = ids[1];
    let left_side = side_at(given, args.standing, left);
    let right_side = side_at(given, args.standing, right);
    let scaling = pairing_scaling(pairing, left_side, right_side);
    match pairing.pairs(alloc, tree.shape(left), tree.shape(right)) {
        Ok(pairs) => pair_entries(
            alloc,
            args,
            scaling,
            pairs.as_slice(),
            tree.shape(node).size(),
        ),
        Err(_) => Err(ValueStop::Memory),
    }
}
