//! The entries of atoms and linear calls that are reduced.
ghost use Rattle.std.specs.Prelude.{◌≡◌, ◌+◌, true, length, Some, IfOk, OnOk};
ghost use Rattle.dcx_shape.specs.Sides.{entries_of};
ghost use Rattle.dcx_arena.specs.Nodes.{positions, call_at, args_at, sides_at};
ghost use Rattle.dcx_call.specs.declared.call.Call.TheVariants as calls;
ghost use Rattle.dcx_unknowns.specs.Layout.{marked, IsNodeGraph};
ghost use Rattle.dcx_entries.specs.Forming.{IsFormed};
ghost use Rattle.dcx_entries.specs.Standing.{all_forms};
ghost use Rattle.dcx_nodes.specs.Formed.{ReducedGives};
ghost use Rattle.dcx_nodes.specs.Given.{IsReady, IsAtom, first_marked};

use crate::given::Given;
use dcx_atom::{Graph, LinearOp, ValueStop};
use dcx_call::LinearCall;
use dcx_entries::{Arguments, EntryList, atom_entries, linear_entries};
use dcx_linear::Coef;
use dcx_tree::NodeId;
use dcx_unknowns::node_graph;
use std::alloc::Global;

/// The entries of an atom with this graph, whose auxiliary unknowns are the next ones, which are then taken.
fn graph_entries<C: Coef>(
    alloc: Global,
    given: &Given,
    node: NodeId,
    args: &Arguments<C>,
    next: &mut u32,
    graph: &Graph,
) -> Result<EntryList<C>, ValueStop>
    requires ready { IsReady C.can_read given.now.problem.now given.now.reduced.now given.now.fixed.now given.now.setting.now given.now.firsts.now }
    requires call { IsAtom given.now.problem.now.tree node.0 }
    requires ids { positions args.now.ids.now ≡ args_at given.now.problem.now.tree node.0 }
    requires reduced { marked given.now.reduced.now node.0 ≡ true }
    requires next { next.old ≡ first_marked given.now.problem.now given.now.reduced.now node.0 }
    requires graph { IsNodeGraph given.now.problem.now.tree node.0 (Some graph.now) }
    ensures count { IfOk result (λ es. length es ≡ entries_of (sides_at given.now.problem.now.tree node.0)) }
    ensures entries { IsFormed result (ReducedGives C.of_number C.number_of C.sum_gives C.change_gives C.parameter_gives
        given.now.problem.now given.now.setting.now given.now.reduced.now given.now.fixed.now (all_forms C.of_number args.now.standing.now) node.0) }
    ensures next { OnOk result (next.new ≡ first_marked given.now.problem.now given.now.reduced.now (node.0 + 1)) }
{
    let size = given.problem.tree.shape(node).size();
    let entries = atom_entries(alloc, args, *next, graph, size)?;
    *next += graph.aux.as_slice().len() as u32;
    Ok(entries)
}

/// The entries of an atom. Its auxiliary unknowns are the next ones, which are then taken.
///
/// `Passes` at the first entry where an operation passes 128 bits, with the first such operation.
pub(crate) fn atom_node<C: Coef>(
    alloc: Global,
    given: &Given,
    node: NodeId,
    args: &Arguments<C>,
    next: &mut u32,
) -> Result<EntryList<C>, ValueStop>
    requires ready { IsReady C.can_read given.now.problem.now given.now.reduced.now given.now.fixed.now given.now.setting.now given.now.firsts.now }
    requires call { IsAtom given.now.problem.now.tree node.0 }
    requires ids { positions args.now.ids.now ≡ args_at given.now.problem.now.tree node.0 }
    requires reduced { marked given.now.reduced.now node.0 ≡ true }
    requires next { next.old ≡ first_marked given.now.problem.now given.now.reduced.now node.0 }
    ensures count { IfOk result (λ es. length es ≡ entries_of (sides_at given.now.problem.now.tree node.0)) }
    ensures entries { IsFormed result (ReducedGives C.of_number C.number_of C.sum_gives C.change_gives C.parameter_gives
        given.now.problem.now given.now.setting.now given.now.reduced.now given.now.fixed.now (all_forms C.of_number args.now.standing.now) node.0) }
    ensures next { OnOk result (next.new ≡ first_marked given.now.problem.now given.now.reduced.now (node.0 + 1)) }
{
    match node_graph(alloc, given.problem, node) {
        Ok(Some(graph)) => {
            let entries = graph_entries(alloc, given, node, args, next, &graph);
            drop(graph);
            entries
        }
        Ok(None) => unreachable!(),
        Err(_) => Err(ValueStop::Memory),
    }
}

/// The entries of a linear call.
///
/// `Passes` at the first entry where an operation passes 128 bits, with the first such operation.
pub(crate) fn linear_node<C: Coef>(
    alloc: Global,
    given: &Given,
    node: NodeId,
    call: &LinearCall,
    args: &Arguments<C>,
) -> Result<EntryList<C>, ValueStop>
    requires call { call_at given.now.problem.now.tree node.0 ≡ Some (calls.Linear call.now) }
    requires ids { positions args.now.ids.now ≡ args_at given.now.problem.now.tree node.0 }
    ensures count { IfOk result (λ es. length es ≡ entries_of (sides_at given.now.problem.now.tree node.0)) }
    ensures entries { IsFormed result (ReducedGives C.of_number C.number_of C.sum_gives C.change_gives C.parameter_gives
        given.now.problem.now given.now.setting.now given.now.reduced.now given.now.fixed.now (all_forms C.of_number args.now.standing.now) node.0) }
{
    let tree = &given.problem.tree;
    let shapes = match tree.shapes_of(alloc, args.ids) {
        Ok(shapes) => shapes,
        Err(_) => return Err(ValueStop::Memory),
    };
    match call.map(alloc, &shapes) {
        Ok(terms) => {
            let size = tree.shape(node).size();
            let entries = linear_entries(alloc, args, terms.as_slice(), size);
            drop((shapes, terms));
            entries
        }
        Err(_) => Err(ValueStop::Memory),
    }
}
