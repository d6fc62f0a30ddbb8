//! What is formed so far of the nodes of a problem.
ghost use Rattle.std.specs.Prelude.{◌≡◌, ◌<◌, ◌≤◌, ◌+◌, ◌++◌, [], ◌∷◌, length, IfErr, OnOk};
ghost use Rattle.std.specs.List.{All};
ghost use Rattle.dcx_arena.specs.Nodes.{positions, args_at};
ghost use Rattle.dcx_entries.specs.Forming.{OnStop};
ghost use Rattle.dcx_nodes.specs.Given.{IsReady};
ghost use Rattle.dcx_nodes.specs.Uses.{AreLastUses, IsGivenBack};
ghost use Rattle.dcx_nodes.specs.SoFar.{AreFormedTo, StopsAt, IsMarkedStop, stop_of};

use crate::given::Given;
use crate::node::form_node;
use crate::release::give_back_last;
use crate::rows::keep;
use dcx_atom::ValueStop;
use dcx_entries::{FormStop, FormedRow, Standing};
use dcx_linear::Coef;
use dcx_steps::Steps;
use dcx_tree::NodeId;
use std::alloc::Global;
use std::sync::ledger::Ledger;

/// What stands for the nodes so far that are still asked for, the rows of their graphs, and the first unknown that isn't taken.
#[derive(Drop)]
pub(crate) struct Forming<C: Coef> {
    /// What stands for the nodes, in order; an empty list where a node isn't asked for any more.
    pub standing: Vec<Standing<C>>,
    /// The rows of the graphs, by node and entry.
    pub rows: Vec<FormedRow<C>>,
    /// The first auxiliary unknown of the next node.
    pub next: u32,
}

/// What stops a node, with the node.
fn stop_of(node: NodeId, stop: ValueStop) -> FormStop
    ensures { result ≡ stop_of node stop }
{
    match stop {
        ValueStop::Passes { entry, passes } => FormStop::Passes {
            node,
            entry,
            passes,
        },
        ValueStop::ZeroDivisor { entry } => FormStop::ZeroDivisor { node, entry },
        ValueStop::Memory => FormStop::Memory,
    }
}

/// Puts what stands for a node at the end.
fn push_standing<C: Coef>(
    standing: &mut Vec<Standing<C>>,
    kept: Standing<C>,
) -> Result<(), ValueStop>
    ensures ok { OnOk result (standing.new.items ≡ standing.old.items ++ kept ∷ []) }
    ensures err { IfErr result (λ e. e ≡ ValueStop.Memory) }
{
    match standing.push(kept) {
        Ok(()) => Ok(()),
        Err(_) => Err(ValueStop::Memory),
    }
}

/// Puts what stands for a node at the end, and gives back what stands for those of its arguments that it asks for last.
fn put_standing<C: Coef>(
    alloc: Global,
    standing: &mut Vec<Standing<C>>,
    ids: &[NodeId],
    uses: &[u32],
    node: NodeId,
    kept: Standing<C>,
) -> Result<(), ValueStop>
    requires standing { All (λ a. a < length standing.old.items) (positions ids.now) }
    requires uses { All (λ a. a < length uses.now) (positions ids.now) }
    ensures ok { OnOk result (IsGivenBack uses.now node.0 (positions ids.now) (standing.old.items ++ kept ∷ []) standing.new.items) }
    ensures err { IfErr result (λ e. e ≡ ValueStop.Memory) }
{
    push_standing(standing, kept)?;
    give_back_last(alloc, standing, ids, uses, node);
    Ok(())
}

/// Forms a node with these arguments, and gives back what isn't asked for behind it.
fn add_formed<C: Coef>(
    alloc: Global,
    given: &Given,
    uses: &[u32],
    forming: &mut Forming<C>,
    node: NodeId,
    ids: &[NodeId],
) -> Result<(), ValueStop>
    requires ready { IsReady C.can_read given.now.problem.now given.now.reduced.now given.now.fixed.now given.now.setting.now given.now.firsts.now }
    requires uses { AreLastUses given.now.problem.now uses.now }
    requires there { node.0 < length given.now.problem.now.tree }
    requires ids { positions ids.now ≡ args_at given.now.problem.now.tree node.0 }
    requires so_far { AreFormedTo C.of_number C.number_of C.sum_gives C.change_gives C.parameter_gives
        given.now.problem.now given.now.setting.now given.now.reduced.now given.now.fixed.now node.0 forming.old }
    ensures formed { OnOk result (AreFormedTo C.of_number C.number_of C.sum_gives C.change_gives C.parameter_gives
        given.now.problem.now given.now.setting.now given.now.reduced.now given.now.fixed.now (node.0 + 1) forming.new) }
    ensures stop { IfErr result (λ e. OnStop e
        (StopsAt C.of_number C.number_of C.sum_gives C.change_gives C.parameter_gives given.now.problem.now given.now.setting.now given.now.reduced.now given.now.fixed.now node.0)) }
{
    let formed = form_node(
        alloc,
        given,
        node,
        ids,
        &forming.standing,
        &mut forming.next,
    )?;
    match keep(alloc, &mut forming.rows, node, formed) {
        Ok(kept) => put_standing(alloc, &mut forming.standing, ids, uses, node, kept),
        Err(_) => Err(ValueStop::Memory),
    }
}

/// Forms one node more, and gives back what isn't asked for behind it.
///
/// `Passes` where an operation passes 128 bits, and `ZeroDivisor` where a divisor is 0: the first of both, entry by entry.
fn add_node<C: Coef>(
    alloc: Global,
    given: &Given,
    uses: &[u32],
    forming: &mut Forming<C>,
    node: NodeId,
) -> Result<(), ValueStop>
    requires ready { IsReady C.can_read given.now.problem.now given.now.reduced.now given.now.fixed.now given.now.setting.now given.now.firsts.now }
    requires uses { AreLastUses given.now.problem.now uses.now }
    requires there { node.0 < length given.now.problem.now.tree }
    requires so_far { AreFormedTo C.of_number C.number_of C.sum_gives C.change_gives C.parameter_gives
        given.now.problem.now given.now.setting.now given.now.reduced.now given.now.fixed.now node.0 forming.old }
    ensures formed { OnOk result (AreFormedTo C.of_number C.number_of C.sum_gives C.change_gives C.parameter_gives
        given.now.problem.now given.now.setting.now given.now.reduced.now given.now.fixed.now (node.0 + 1) forming.new) }
    ensures stop { IfErr result (λ e. OnStop e
        (StopsAt C.of_number C.number_of C.sum_gives C.change_gives C.parameter_gives given.now.problem.now given.now.setting.now given.now.reduced.now given.now.fixed.now node.0)) }
{
    match given.problem.tree.args(alloc, node) {
        Ok(ids) => add_formed(alloc, given, uses, forming, node, &ids),
        Err(_) => Err(ValueStop::Memory),
    }
}

/// Forms all nodes, in order, and counts a step for each that it begins. `uses` tells where each node is last asked for.
///
/// `Passes` or `ZeroDivisor` at the first node and entry with an operation that passes 128 bits or a divisor that is 0.
pub(crate) fn add_nodes<C: Coef, L: Ledger>(
    alloc: Global,
    given: &Given,
    uses: &[u32],
    forming: &mut Forming<C>,
    steps: &mut Steps<L>,
) -> Result<(), FormStop>
    requires ready { IsReady C.can_read given.now.problem.now given.now.reduced.now given.now.fixed.now given.now.setting.now given.now.firsts.now }
    requires uses { AreLastUses given.now.problem.now uses.now }
    requires none { AreFormedTo C.of_number C.number_of C.sum_gives C.change_gives C.parameter_gives
        given.now.problem.now given.now.setting.now given.now.reduced.now given.now.fixed.now 0 forming.old }
    ensures formed { OnOk result (AreFormedTo C.of_number C.number_of C.sum_gives C.change_gives C.parameter_gives
        given.now.problem.now given.now.setting.now given.now.reduced.now given.now.fixed.now (length given.now.problem.now.tree) forming.new) }
    ensures stop { IfErr result (IsMarkedStop C.of_number C.number_of C.sum_gives C.change_gives C.parameter_gives
        given.now.problem.now given.now.setting.now given.now.reduced.now given.now.fixed.now) }
    ensures steps { OnOk result (steps.new ≡ steps.old + length given.now.problem.now.tree) }
    ensures begun { steps.new ≤ steps.old + length given.now.problem.now.tree }
{
    'nodes: for i in 0..given.problem.tree.nodes() {
        steps.tick();
        match add_node(alloc, given, uses, forming, NodeId(i)) {
            Ok(()) => {}
            Err(stop) => return Err(stop_of(NodeId(i), stop)),
        }
    }
    Ok(())
}
