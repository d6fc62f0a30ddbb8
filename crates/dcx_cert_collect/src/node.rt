//! What one node does with the coefficients that are collected at it.
ghost use Rattle.std.specs.Prelude.{◌≡◌, ◌<◌, ◌++◌, ◌^◌, ℕ, List, Ok, Some, length, OnOk, IfErr, is_some, slice_index};
ghost use Rattle.std.specs.Option.{IsSomeAnd};
ghost use Rattle.dcx_frac.specs.declared.fraction.Frac.{Frac};
ghost use Rattle.dcx_shape.specs.Sides.{entries_of};
ghost use Rattle.dcx_atom.specs.Arrays.{sides_list};
ghost use Rattle.dcx_atom.specs.Entrywise.{products_from};
ghost use Rattle.dcx_atom.specs.Steps.{rows_before};
ghost use Rattle.dcx_arena.specs.Nodes.{AreNodes, positions, sides_at};
ghost use Rattle.dcx_call.specs.Atoms.{atom_meaning};
ghost use Rattle.dcx_call.specs.Linears.{linear_meaning};
ghost use Rattle.dcx_call.specs.Calls.{shape_of, sides_of_two};
ghost use Rattle.dcx_tree.specs.Values.{array_at};
ghost use Rattle.dcx_cert_collect.specs.Starts.{AreStarts, ArePlaces};
ghost use Rattle.dcx_cert_collect.specs.Calls.{numbers_of, scaling_numbers, linear_shares, atom_shares};
ghost use Rattle.dcx_cert_collect.specs.Pass.{counted, or_passes, IsOrMemory, handed, pairing_hands, node_reached, node_shares, HasWeights, HasFractions};
ghost use Rattle.dcx_atom.specs.Fractions.{AreFractionSlopes};

use crate::collected::Reached;
use crate::linear::hand_linear;
use crate::pairs::{Scaling, hand_pairs, scaling_of};
use crate::places::{Given, Places};
use crate::slopes::hand_slopes;
use crate::stop::{CollectStop, stop_of};
use dcx_affine::Pairing;
use dcx_atom::{Array, Atom, LinearOp, number_at};
use dcx_call::{AtomCall, Call, LinearCall};
use dcx_frac::{Frac, Fracs, Passes};
use dcx_shape::Shape;
use dcx_tree::{NodeId, Tree};
use std::alloc::{AllocError, Global};

/// The weights of nonlinear calls, by node.
pub trait CallWeights {
    /// The weights of each node.
    ghost weights: { Self → ℕ → List Frac };

    /// The weights of a node, by result entry and row of its graph.
    fn of_node(&self, node: NodeId) -> &[Frac]
        ensures { result.now ≡ weights self.now node.0 };
}

/// Counts coefficients with the numbers of their entries.
pub(crate) fn add_products(
    total: Frac,
    coefficients: &[Frac],
    numbers: &[Frac],
) -> Result<Frac, Passes>
    ensures { result ≡ products_from total (counted coefficients.now numbers.now) }
{
    let mut sum = total;
    for (e, coefficient) in coefficients.iter().enumerate() {
        sum = sum.add(coefficient.mul(number_at(numbers, e))?)?;
    }
    Ok(sum)
}

/// An operation that passes, as a stop.
fn or_passes(told: Result<(), Passes>) -> Result<(), CollectStop>
    ensures { result ≡ or_passes told }
{
    match told {
        Ok(()) => Ok(()),
        Err(passes) => Err(CollectStop::Passes(passes)),
    }
}

/// Whether the value of a node is known.
fn is_known(values: &[Option<Array>], node: NodeId) -> bool
    ensures { result ≡ is_some (array_at values.now node.0) }
{
    match values.get(node.0 as usize) {
        Some(value) => value.is_some(),
        None => false,
    }
}

/// The numbers of a node's value; none where it isn't known.
fn numbers_at(values: &[Option<Array>], node: NodeId) -> &[Frac]
    ensures { result.now ≡ numbers_of (array_at values.now node.0) }
{
    match values.get(node.0 as usize) {
        Some(Some(value)) => value.entries.as_slice(),
        _ => &[],
    }
}

/// The numbers of the side that multiplies or divides.
fn scaling_numbers(
    values: &[Option<Array>],
    scaling: Scaling,
    left: NodeId,
    right: NodeId,
) -> &[Frac]
    ensures { result.now ≡ scaling_numbers scaling (array_at values.now left.0) (array_at values.now right.0) }
{
    match scaling {
        Scaling::ByLeft => numbers_at(values, left),
        Scaling::ByRight | Scaling::Divided => numbers_at(values, right),
    }
}

/// Hands a nonlinear call's coefficients on by its slopes.
///
/// `Slope` where the weights break a condition, and `Passes` where an operation passes 128 bits: the first of both, result entry
/// by result entry.
fn hand_atom(
    alloc: Global,
    node: NodeId,
    places: &Places,
    shapes: &[Shape],
    atom: &AtomCall,
    coefficients: &[Frac],
    weights: &[Frac],
    table: &mut Vec<Frac>,
) -> Result<(), CollectStop>
    requires places { ArePlaces places.now.tree.now places.now.starts.now (positions places.now.args.now) }
    requires shapes { length shapes.now ≡ length places.now.args.now }
    requires shape { IsSomeAnd ((atom_meaning atom.now).shape (sides_list shapes.now)) (λ s. length coefficients.now ≡ entries_of s) }
    requires weights { length weights.now ≡ rows_before (atom_meaning atom.now) (sides_list shapes.now) (length coefficients.now) }
    ensures ok { OnOk result (handed table.old.items (atom_shares places.now.tree.now node.0 (positions places.now.args.now) (atom_meaning atom.now)
        (sides_list shapes.now) coefficients.now weights.now) ≡ Ok table.new.items) }
    ensures fractions { OnOk result (AreFractionSlopes (atom_meaning atom.now) (sides_list shapes.now) weights.now) }
    ensures stop { IfErr result (IsOrMemory (handed table.old.items (atom_shares places.now.tree.now node.0 (positions places.now.args.now) (atom_meaning atom.now)
        (sides_list shapes.now) coefficients.now weights.now))) }
{
    match atom.slopes(alloc, shapes, coefficients, weights) {
        Ok(slopes) => or_passes(hand_slopes(places, shapes, slopes.as_slice(), table)),
        Err(stop) => Err(stop_of(node, stop)),
    }
}

/// Hands a linear call's coefficients on by its terms.
///
/// `Passes` where an operation passes 128 bits: the first one, entry by entry and term by term.
fn hand_op(
    alloc: Global,
    places: &Places,
    shapes: &[Shape],
    op: &LinearCall,
    coefficients: &[Frac],
    table: &mut Vec<Frac>,
) -> Result<(), CollectStop>
    requires places { ArePlaces places.now.tree.now places.now.starts.now (positions places.now.args.now) }
    requires shape { IsSomeAnd ((linear_meaning op.now).shape (sides_list shapes.now)) (λ s. length coefficients.now ≡ entries_of s) }
    ensures ok { OnOk result (handed table.old.items (Ok (linear_shares places.now.tree.now (positions places.now.args.now) coefficients.now
        ((linear_meaning op.now).terms (sides_list shapes.now)))) ≡ Ok table.new.items) }
    ensures stop { IfErr result (IsOrMemory
        (handed table.old.items (Ok (linear_shares places.now.tree.now (positions places.now.args.now) coefficients.now ((linear_meaning op.now).terms (sides_list shapes.now)))))) }
{
    match op.map(alloc, shapes) {
        Ok(terms) => or_passes(hand_linear(places, coefficients, terms.as_slice(), table)),
        Err(_) => Err(CollectStop::Memory),
    }
}

/// Hands the coefficients of a product or a quotient on by its pairs.
///
/// `Passes` where an operation passes 128 bits: the first one, entry by entry and pair by pair.
fn hand_pairing(
    alloc: Global,
    values: &[Option<Array>],
    places: &Places,
    shapes: &[Shape],
    pairing: Pairing,
    coefficients: &[Frac],
    table: &mut Vec<Frac>,
) -> Result<(), CollectStop>
    requires places { ArePlaces places.now.tree.now places.now.starts.now (positions places.now.args.now) }
    requires shapes { length shapes.now ≡ length places.now.args.now }
    requires shape { IsSomeAnd (sides_of_two pairing (sides_list shapes.now)) (λ s. length coefficients.now ≡ entries_of s) }
    ensures ok { OnOk result (handed table.old.items (Ok (pairing_hands places.now.tree.now (positions places.now.args.now) pairing (sides_list shapes.now)
        (array_at values.now (slice_index (positions places.now.args.now) 0)) (array_at values.now (slice_index (positions places.now.args.now) 1)) coefficients.now)) ≡ Ok table.new.items) }
    ensures stop { IfErr result (IsOrMemory (handed table.old.items (Ok (pairing_hands places.now.tree.now (positions places.now.args.now) pairing (sides_list shapes.now)
        (array_at values.now (slice_index (positions places.now.args.now) 0)) (array_at values.now (slice_index (positions places.now.args.now) 1)) coefficients.now)))) }
{
    let scaling = scaling_of(pairing, is_known(values, places.args[0]));
    let numbers = scaling_numbers(values, scaling, places.args[0], places.args[1]);
    match pairing.pairs(alloc, shapes[0], shapes[1]) {
        Ok(pairs) => or_passes(hand_pairs(
            places,
            scaling,
            numbers,
            coefficients,
            pairs.as_slice(),
            table,
        )),
        Err(_) => Err(CollectStop::Memory),
    }
}

/// Hands the coefficients of a node on to its arguments.
///
/// `Slope` where the weights of a nonlinear call break a condition, and `Passes` where an operation passes 128 bits: the first of both.
pub(crate) fn hand_call(
    alloc: Global,
    given: &Given,
    node: NodeId,
    coefficients: &[Frac],
    weights: &[Frac],
    table: &mut Vec<Frac>,
) -> Result<(), CollectStop>
    requires nodes { AreNodes shape_of given.now.tree.now }
    requires there { node.0 < length given.now.tree.now }
    requires starts { AreStarts given.now.tree.now given.now.starts.now }
    requires coefficients { length coefficients.now ≡ entries_of (sides_at given.now.tree.now node.0) }
    requires weights { HasWeights given.now.tree.now node.0 weights.now }
    ensures ok { OnOk result (handed table.old.items (node_shares given.now.tree.now given.now.values.now node.0 coefficients.now weights.now) ≡ Ok table.new.items) }
    ensures fractions { OnOk result (HasFractions given.now.tree.now node.0 weights.now) }
    ensures stop { IfErr result (IsOrMemory (handed table.old.items (node_shares given.now.tree.now given.now.values.now node.0 coefficients.now weights.now))) }
{
    let tree = given.tree;
    let Ok(args) = tree.args(alloc, node) else {
        return Err(CollectStop::Memory);
    };
    let Ok(shapes) = tree.shapes_of(alloc, &args) else {
        return Err(CollectStop::Memory);
    };
    let places = Places {
        tree,
        starts: given.starts,
        args: &args,
    };
    match tree.call(node) {
        Call::Variable(_) | Call::Parameter(_) | Call::Constant(_) => Ok(()),
        Call::Atom(atom) => hand_atom(
            alloc,
            node,
            &places,
            &shapes,
            atom,
            coefficients,
            weights,
            table,
        ),
        Call::Linear(op) => hand_op(alloc, &places, &shapes, op, coefficients, table),
        Call::Pairing(pairing) => hand_pairing(
            alloc,
            given.values,
            &places,
            &shapes,
            *pairing,
            coefficients,
            table,
        ),
    }
}

/// Keeps the coefficients of a node that is a variable.
pub(crate) fn keep(
    tree: &Tree,
    node: NodeId,
    coefficients: Vec<Frac>,
    reached: &mut Vec<Reached>,
) -> Result<(), AllocError>
    requires { node.0 < length tree.now }
    ensures { OnOk result (reached.new.items ≡ reached.old.items ++ node_reached tree.now node.0 coefficients.items) }
{
    if let Call::Variable(_) = tree.call(node) {
        reached.push(Reached {
            node,
            coefficients: Fracs::from_vec(coefficients),
        })?;
    }
    Ok(())
}
