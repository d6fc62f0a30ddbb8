//! The pass over all nodes, from the last one down.
ghost use Rattle.std.specs.Prelude.{◌≡◌, ◌<◌, ◌+◌, [], None, length, Ok, Err, OnOk, IfOk, IfErr};
ghost use Rattle.dcx_shape.specs.Sides.{entries_of};
ghost use Rattle.dcx_atom.specs.Entrywise.{products_from};
ghost use Rattle.dcx_arena.specs.Nodes.{AreNodes, entries_in, sides_at};
ghost use Rattle.dcx_call.specs.Calls.{shape_of};
ghost use Rattle.dcx_tree.specs.Values.{array_at};
ghost use Rattle.dcx_cert_collect.specs.Starts.{start_of, AreStarts};
ghost use Rattle.dcx_cert_collect.specs.Pass.{kept_of, begin, counted, or_passes, with_below, node_reached, node_shares, handed, passed, step};
ghost use Rattle.dcx_cert_collect.specs.Pass.{pass_down, IsOrMemory, HasWeights, HaveWeights, HasFractions, HaveFractions, IsGiven};

use crate::collected::{Collected, Collecting, ReachedList};
use crate::node::{CallWeights, add_products, hand_call, keep};
use crate::places::Given;
use crate::stop::CollectStop;
use dcx_atom::Array;
use dcx_frac::Frac;
use dcx_tree::NodeId;
use std::alloc::Global;

/// Counts coefficients with the numbers of a value.
fn count(value: &Array, coefficients: &[Frac], total: &mut Frac) -> Result<(), CollectStop>
    ensures ok { OnOk result (products_from total.old (counted coefficients.now value.now.entries) ≡ Ok total.new) }
    ensures stop { IfErr result (λ e. or_passes (products_from total.old (counted coefficients.now value.now.entries)) ≡ Err e) }
{
    match add_products(*total, coefficients, value.entries.as_slice()) {
        Ok(sum) => {
            *total = sum;
            Ok(())
        }
        Err(passes) => Err(CollectStop::Passes(passes)),
    }
}

/// Hands the coefficients of a node on, and keeps those of a variable.
fn hand_on(
    alloc: Global,
    given: &Given,
    node: NodeId,
    coefficients: Vec<Frac>,
    weights: &[Frac],
    state: &mut Collecting,
) -> Result<(), CollectStop>
    requires nodes { AreNodes shape_of given.now.tree.now }
    requires there { node.0 < length given.now.tree.now }
    requires starts { AreStarts given.now.tree.now given.now.starts.now }
    requires coefficients { length coefficients.items ≡ entries_of (sides_at given.now.tree.now node.0) }
    requires weights { HasWeights given.now.tree.now node.0 weights.now }
    ensures ok { OnOk result (with_below (kept_of state.old) (node_reached given.now.tree.now node.0 coefficients.items)
        (handed state.old.below.items (node_shares given.now.tree.now given.now.values.now node.0 coefficients.items weights.now)) ≡ Ok (kept_of state.new)) }
    ensures fractions { OnOk result (HasFractions given.now.tree.now node.0 weights.now) }
    ensures stop { IfErr result (IsOrMemory (with_below (kept_of state.old) (node_reached given.now.tree.now node.0 coefficients.items)
        (handed state.old.below.items (node_shares given.now.tree.now given.now.values.now node.0 coefficients.items weights.now)))) }
{
    hand_call(
        alloc,
        given,
        node,
        coefficients.as_slice(),
        weights,
        &mut state.below,
    )?;
    match keep(given.tree, node, coefficients, &mut state.reached) {
        Ok(()) => Ok(()),
        Err(_) => Err(CollectStop::Memory),
    }
}

/// Counts the coefficients of a node with its value, where that is known, and else hands them on.
fn pass_node(
    alloc: Global,
    given: &Given,
    node: NodeId,
    coefficients: Vec<Frac>,
    weights: &[Frac],
    state: &mut Collecting,
) -> Result<(), CollectStop>
    requires nodes { AreNodes shape_of given.now.tree.now }
    requires there { node.0 < length given.now.tree.now }
    requires given { IsGiven given.now.tree.now given.now.starts.now given.now.values.now }
    requires coefficients { length coefficients.items ≡ entries_of (sides_at given.now.tree.now node.0) }
    requires weights { array_at given.now.values.now node.0 ≡ None → HasWeights given.now.tree.now node.0 weights.now }
    ensures ok { OnOk result (passed given.now.tree.now given.now.values.now (λ i. weights.now) node.0 (array_at given.now.values.now node.0) coefficients.items (kept_of state.old)
        ≡ Ok (kept_of state.new)) }
    ensures fractions { OnOk result (array_at given.now.values.now node.0 ≡ None → HasFractions given.now.tree.now node.0 weights.now) }
    ensures stop { IfErr result (IsOrMemory (passed given.now.tree.now given.now.values.now (λ i. weights.now) node.0 (array_at given.now.values.now node.0) coefficients.items (kept_of state.old))) }
{
    match &given.values[node.0 as usize] {
        Some(value) => count(value, coefficients.as_slice(), &mut state.total),
        None => hand_on(alloc, given, node, coefficients, weights, state),
    }
}

/// Passes one node: takes its coefficients off the list of all, and counts them or hands them on.
fn pass_one<W: CallWeights>(
    alloc: Global,
    given: &Given,
    weights: &W,
    node: NodeId,
    state: &mut Collecting,
) -> Result<(), CollectStop>
    requires nodes { AreNodes shape_of given.now.tree.now }
    requires there { node.0 < length given.now.tree.now }
    requires given { IsGiven given.now.tree.now given.now.starts.now given.now.values.now }
    requires weights { HaveWeights given.now.tree.now given.now.values.now (W.weights weights.now) }
    requires below { length state.old.below.items ≡ start_of given.now.tree.now (node.0 + 1) }
    ensures ok { OnOk result (step given.now.tree.now given.now.values.now (W.weights weights.now) node.0 (kept_of state.old) ≡ Ok (kept_of state.new)) }
    ensures below { OnOk result (length state.new.below.items ≡ start_of given.now.tree.now node.0) }
    ensures fractions { OnOk result (array_at given.now.values.now node.0 ≡ None → HasFractions given.now.tree.now node.0 (W.weights weights.now node.0)) }
    ensures stop { IfErr result (IsOrMemory (step given.now.tree.now given.now.values.now (W.weights weights.now) node.0 (kept_of state.old))) }
{
    let start = given.starts[node.0 as usize] as usize;
    match state.below.split_off(start) {
        Ok(own) => pass_node(alloc, given, node, own, weights.of_node(node), state),
        Err(_) => Err(CollectStop::Memory),
    }
}

/// Hands the coefficients of all entries on, from the last node down. `table` has them node by node and entry by entry.
///
/// What reaches the variables is kept, and what reaches a node whose value is known is counted with the value.
///
/// `Slope` where the weights of a nonlinear call break a condition, and `Passes` where an operation passes 128 bits: the first of
/// both, nodes falling.
pub fn collect<W: CallWeights>(
    alloc: Global,
    given: &Given,
    weights: &W,
    table: Vec<Frac>,
) -> Result<Collected, CollectStop>
    requires given { IsGiven given.now.tree.now given.now.starts.now given.now.values.now }
    requires weights { HaveWeights given.now.tree.now given.now.values.now (W.weights weights.now) }
    requires table { length table.items ≡ entries_in given.now.tree.now }
    ensures ok { IfOk result (λ k. pass_down given.now.tree.now given.now.values.now (W.weights weights.now) (length given.now.tree.now) (begin table.items)
        ≡ Ok (record { below = []; reached = k.reached; total = k.total })) }
    ensures fractions { OnOk result (HaveFractions given.now.tree.now given.now.values.now (W.weights weights.now)) }
    ensures stop { IfErr result (IsOrMemory (pass_down given.now.tree.now given.now.values.now (W.weights weights.now) (length given.now.tree.now) (begin table.items))) }
{
    let mut state = Collecting {
        below: table,
        reached: Vec::new(alloc),
        total: Frac::zero(),
    };
    let count = given.tree.nodes();
    for k in 0..count {
        pass_one(alloc, given, weights, NodeId(count - 1 - k), &mut state)?;
    }
    Ok(Collected {
        reached: ReachedList::from_vec(state.reached),
        total: state.total,
    })
}
