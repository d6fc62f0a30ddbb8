//! What is formed of one node.
ghost use Rattle.std.specs.Prelude.{◌≡◌, ◌<◌, ◌+◌, List, length, IfOk, OnOk, true};
ghost use Rattle.dcx_arena.specs.Nodes.{positions, args_at, sides_at};
ghost use Rattle.dcx_unknowns.specs.Layout.{marked};
ghost use Rattle.dcx_entries.specs.Standing.{all_forms};
ghost use Rattle.dcx_nodes.specs.Formed.{IsOfSides, AreOfSides, StandingBy, as_forms, as_value, ReducedGives, MarkedGives};
ghost use Rattle.dcx_nodes.specs.Given.{IsReady, first_marked};

use crate::calls::{atom_node, linear_node};
use crate::given::Given;
use crate::leaf::{parameter_node, variable_node};
use crate::number::node_value;
use crate::products::pairing_node;
use dcx_atom::{Array, ValueStop};
use dcx_entries::{Arguments, EntryList, Standing};
use dcx_linear::Coef;
use dcx_tree::{Call, NodeId};
use std::alloc::Global;

/// Entries that stand for a node.
fn as_forms<C: Coef>(entries: Result<EntryList<C>, ValueStop>) -> Result<Standing<C>, ValueStop>
    ensures { result ≡ as_forms entries }
{
    match entries {
        Ok(entries) => Ok(Standing::Forms(entries)),
        Err(stop) => Err(stop),
    }
}

/// A value that stands for a node.
fn as_value<C: Coef>(value: Result<Array, ValueStop>) -> Result<Standing<C>, ValueStop>
    ensures { result ≡ as_value value }
{
    match value {
        Ok(array) => Ok(Standing::Numbers(array)),
        Err(stop) => Err(stop),
    }
}

/// What stands for a node that is reduced. A constant is its value. The auxiliary unknowns of an atom are the next ones, which
/// are then taken.
fn form_reduced<C: Coef>(
    alloc: Global,
    given: &Given,
    node: NodeId,
    args: &Arguments<C>,
    next: &mut u32,
) -> Result<Standing<C>, ValueStop>
    requires ready { IsReady C.can_read given.now.problem.now given.now.reduced.now given.now.fixed.now given.now.setting.now given.now.firsts.now }
    requires there { node.0 < length given.now.problem.now.tree }
    requires ids { positions args.now.ids.now ≡ args_at given.now.problem.now.tree node.0 }
    requires before { length args.now.standing.now ≡ node.0 }
    requires sides { AreOfSides given.now.problem.now.tree args.now.standing.now (positions args.now.ids.now) }
    requires reduced { marked given.now.reduced.now node.0 ≡ true }
    requires next { next.old ≡ first_marked given.now.problem.now given.now.reduced.now node.0 }
    ensures sides { IfOk result (IsOfSides (sides_at given.now.problem.now.tree node.0)) }
    ensures entries { StandingBy C.of_number result
        (ReducedGives C.of_number C.number_of C.sum_gives C.change_gives C.parameter_gives given.now.problem.now given.now.setting.now given.now.reduced.now given.now.fixed.now
        (all_forms C.of_number args.now.standing.now) node.0) }
    ensures next { OnOk result (next.new ≡ first_marked given.now.problem.now given.now.reduced.now (node.0 + 1)) }
{
    match given.problem.tree.call(node) {
        Call::Variable(variable) => as_forms(variable_node(alloc, given, node, variable)),
        Call::Parameter(parameter) => as_forms(parameter_node(alloc, given, node, parameter)),
        Call::Constant(_) => as_value(node_value(alloc, given, node, args)),
        Call::Atom(_) => as_forms(atom_node(alloc, given, node, args, next)),
        Call::Linear(call) => as_forms(linear_node(alloc, given, node, call, args)),
        Call::Pairing(pairing) => as_forms(pairing_node(alloc, given, node, *pairing, args)),
    }
}

/// What stands for a node with these arguments, where this stands for the nodes before it; of these the arguments alone are read.
/// The auxiliary unknowns of an atom that is reduced are the next ones, which are then taken.
///
/// `Passes` where an operation passes 128 bits, and `ZeroDivisor` where a divisor is 0: the first of both, entry by entry.
pub(crate) fn form_node<C: Coef>(
    alloc: Global,
    given: &Given,
    node: NodeId,
    ids: &[NodeId],
    standing: &[Standing<C>],
    next: &mut u32,
) -> Result<Standing<C>, ValueStop>
    requires ready { IsReady C.can_read given.now.problem.now given.now.reduced.now given.now.fixed.now given.now.setting.now given.now.firsts.now }
    requires there { node.0 < length given.now.problem.now.tree }
    requires before { length standing.now ≡ node.0 }
    requires ids { positions ids.now ≡ args_at given.now.problem.now.tree node.0 }
    requires sides { AreOfSides given.now.problem.now.tree standing.now (positions ids.now) }
    requires next { next.old ≡ first_marked given.now.problem.now given.now.reduced.now node.0 }
    ensures sides { IfOk result (IsOfSides (sides_at given.now.problem.now.tree node.0)) }
    ensures entries { StandingBy C.of_number result
        (MarkedGives C.of_number C.number_of C.sum_gives C.change_gives C.parameter_gives given.now.problem.now given.now.setting.now given.now.reduced.now given.now.fixed.now
        (all_forms C.of_number standing.now) node.0) }
    ensures next { OnOk result (next.new ≡ first_marked given.now.problem.now given.now.reduced.now (node.0 + 1)) }
{
    let args = Arguments { standing, ids };
    if given.reduced[node.0 as usize] {
        form_reduced(alloc, given, node, &args, next)
    } else {
        as_value(node_value(alloc, given, node, &args))
    }
}
