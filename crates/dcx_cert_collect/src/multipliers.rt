//! The coefficients that multipliers give the objective and the sides of the constraints.
ghost use Rattle.std.specs.Prelude.{◌≡◌, ◌<◌, length, Ok, Err, OnOk, IfOk, IfErr, Some, slice_get};
ghost use Rattle.dcx_atom.specs.Arrays.{joined_below};
ghost use Rattle.dcx_arena.specs.Nodes.{entries_in};
ghost use Rattle.dcx_tree.specs.Problems.{AreConstraints};
ghost use Rattle.dcx_cert_collect.specs.Shares.{frac_in, with_shares};
ghost use Rattle.dcx_cert_collect.specs.Starts.{AreStarts};
ghost use Rattle.dcx_cert_collect.specs.Pass.{IsOrMemory, or_passes};
ghost use Rattle.dcx_cert_collect.specs.Multipliers.{objective_number, objective_shares, array_shares, negated_shares, constraint_shares, all_shares, start_table, AreDuals};

use crate::places::place_of;
use crate::shares::add_share;
use crate::stop::CollectStop;
use dcx_atom::{Array, minus_one, number_at};
use dcx_frac::{Frac, Passes};
use dcx_tree::{Constraint, NodeId, Problem, Sense, Tree};
use std::alloc::Global;

/// What the objective gets: 1 where it is minimized, and -1 where it is maximized.
fn objective_number(sense: Sense) -> Frac
    ensures { result ≡ objective_number sense }
{
    match sense {
        Sense::Minimize => Frac::one(),
        Sense::Maximize => minus_one(),
    }
}

/// Number `entry` of an array.
fn entry_of(array: &Array, entry: u32) -> Frac
    ensures { result ≡ frac_in array.now.entries entry }
{
    number_at(array.entries.as_slice(), entry as usize)
}

/// Adds the numbers of an array at the entries of a node.
fn add_array(
    tree: &Tree,
    starts: &[u32],
    node: NodeId,
    array: &Array,
    table: &mut Vec<Frac>,
) -> Result<(), Passes>
    requires there { node.0 < length tree.now }
    requires starts { AreStarts tree.now starts.now }
    ensures ok { OnOk result (with_shares table.old.items (array_shares tree.now node.0 array.now) ≡ Ok table.new.items) }
    ensures passes { IfErr result (λ p. with_shares table.old.items (array_shares tree.now node.0 array.now) ≡ Err p) }
{
    for e in 0..array.shape.size() {
        let number = entry_of(array, e);
        add_share(table, place_of(tree, starts, node, e), Ok(number))?;
    }
    Ok(())
}

/// Adds the negated numbers of an array at the entries of a node.
fn add_negated(
    tree: &Tree,
    starts: &[u32],
    node: NodeId,
    array: &Array,
    table: &mut Vec<Frac>,
) -> Result<(), Passes>
    requires there { node.0 < length tree.now }
    requires starts { AreStarts tree.now starts.now }
    ensures ok { OnOk result (with_shares table.old.items (negated_shares tree.now node.0 array.now) ≡ Ok table.new.items) }
    ensures passes { IfErr result (λ p. with_shares table.old.items (negated_shares tree.now node.0 array.now) ≡ Err p) }
{
    for e in 0..array.shape.size() {
        let number = entry_of(array, e).neg();
        add_share(table, place_of(tree, starts, node, e), Ok(number))?;
    }
    Ok(())
}

/// Adds the multipliers of a constraint on its left side, and their negations on its right side.
fn add_constraint(
    tree: &Tree,
    starts: &[u32],
    constraint: &Constraint,
    array: &Array,
    table: &mut Vec<Frac>,
) -> Result<(), Passes>
    requires left { constraint.now.left.0 < length tree.now }
    requires right { constraint.now.right.0 < length tree.now }
    requires starts { AreStarts tree.now starts.now }
    ensures ok { OnOk result (with_shares table.old.items (constraint_shares tree.now (Some constraint.now) (Some array.now)) ≡ Ok table.new.items) }
    ensures passes { IfErr result (λ p. with_shares table.old.items (constraint_shares tree.now (Some constraint.now) (Some array.now)) ≡ Err p) }
{
    add_array(tree, starts, constraint.left, array, table)?;
    add_negated(tree, starts, constraint.right, array, table)
}

/// Adds the multipliers of all constraints, in order.
fn add_constraints(
    tree: &Tree,
    starts: &[u32],
    constraints: &[Constraint],
    duals: &[Array],
    table: &mut Vec<Frac>,
) -> Result<(), Passes>
    requires constraints { AreConstraints tree.now constraints.now }
    requires starts { AreStarts tree.now starts.now }
    requires count { length duals.now ≡ length constraints.now }
    ensures ok { OnOk result (with_shares table.old.items (joined_below (length constraints.now) (λ k. constraint_shares tree.now (slice_get constraints.now k) (slice_get duals.now k)))
        ≡ Ok table.new.items) }
    ensures passes { IfErr result (λ p. with_shares table.old.items (joined_below (length constraints.now)
        (λ k. constraint_shares tree.now (slice_get constraints.now k) (slice_get duals.now k))) ≡ Err p) }
{
    for (k, constraint) in constraints.iter().enumerate() {
        add_constraint(tree, starts, constraint, &duals[k], table)?;
    }
    Ok(())
}

/// Adds what the objective gets, if it is asked for, and the multipliers of all constraints.
fn add_all(
    problem: &Problem,
    starts: &[u32],
    with_objective: bool,
    duals: &[Array],
    table: &mut Vec<Frac>,
) -> Result<(), Passes>
    requires starts { AreStarts problem.now.tree starts.now }
    requires count { length duals.now ≡ length problem.now.constraints }
    ensures ok { OnOk result (with_shares table.old.items (all_shares with_objective problem.now duals.now) ≡ Ok table.new.items) }
    ensures passes { IfErr result (λ p. with_shares table.old.items (all_shares with_objective problem.now duals.now) ≡ Err p) }
{
    add_objective(problem, starts, with_objective, table)?;
    add_constraints(
        &problem.tree,
        starts,
        problem.constraints.as_slice(),
        duals,
        table,
    )
}

/// Adds what the objective gets, if it is asked for.
fn add_objective(
    problem: &Problem,
    starts: &[u32],
    with_objective: bool,
    table: &mut Vec<Frac>,
) -> Result<(), Passes>
    requires { AreStarts problem.now.tree starts.now }
    ensures ok { OnOk result (with_shares table.old.items (objective_shares with_objective problem.now) ≡ Ok table.new.items) }
    ensures passes { IfErr result (λ p. with_shares table.old.items (objective_shares with_objective problem.now) ≡ Err p) }
{
    if !with_objective {
        return Ok(());
    }
    let place = place_of(&problem.tree, starts, problem.objective, 0);
    add_share(table, place, Ok(objective_number(problem.sense)))
}

/// How many entries all nodes have.
fn entry_count(tree: &Tree) -> u32
    ensures { result ≡ entries_in tree.now }
{
    let mut count = 0u32;
    for i in 0..tree.nodes() {
        count += tree.shape(NodeId(i)).size();
    }
    count
}

/// The coefficients at the start: 1 for the minimized objective, if it is asked for, and of each constraint its multipliers on
/// the left and their negations on the right.
///
/// `Passes` where an addition passes 128 bits, the first one: the objective, then the constraints in order, left before right.
pub fn start_table(
    alloc: Global,
    problem: &Problem,
    starts: &[u32],
    with_objective: bool,
    duals: &[Array],
) -> Result<Vec<Frac>, CollectStop>
    requires starts { AreStarts problem.now.tree starts.now }
    requires duals { AreDuals problem.now duals.now }
    ensures ok { IfOk result (λ t. start_table with_objective problem.now duals.now ≡ Ok t.items) }
    ensures count { IfOk result (λ t. length t.items ≡ entries_in problem.now.tree) }
    ensures stop { IfErr result (IsOrMemory (or_passes (start_table with_objective problem.now duals.now))) }
{
    let count = entry_count(&problem.tree) as usize;
    let Ok(mut table) = vec![in alloc; Frac::zero(); count] else {
        return Err(CollectStop::Memory);
    };
    match add_all(problem, starts, with_objective, duals, &mut table) {
        Ok(()) => Ok(table),
        Err(passes) => Err(CollectStop::Passes(passes)),
    }
}
