//! The divisors of quotients.
ghost use Rattle.std.specs.Prelude.{◌≡◌, ◌⊎◌, ◌↔◌, ℕ, ◌<◌, [], true, Some, length, All, IfOk, OnOk, IsSome, option_map};
ghost use Rattle.dcx_atom.specs.Arrays.{number_at};
ghost use Rattle.dcx_arena.specs.Nodes.{AreNodes, IsNode, args_at};
ghost use Rattle.dcx_call.specs.Calls.{shape_of};
ghost use Rattle.dcx_call.specs.Values.{IsGiven};
ghost use Rattle.dcx_tree.specs.Nodes.{Node};
ghost use Rattle.dcx_tree.specs.Meaning.{IsAccepted};
ghost use Rattle.dcx_tree.specs.Values.{array_at, IsMarked};
ghost use Rattle.dcx_cert_sections.specs.Checks.{Checked, each_below};
ghost use Rattle.dcx_cert_values.specs.Forming.{GivesParameters, IsBelowDivisor, divisor_in, forming_at, nonzero, dividing_at, divisor_step, divisors};
ghost use Rattle.dcx_cert_values.specs.Tables.{AreKeptValues, StaysKept, AreOnlyFixed};
ghost use Rattle.dcx_cert_values.specs.Marks.{IsDivisor, AreClosed};

use crate::marks::{is_marked, mark_reached};
use crate::table::Values;
use dcx_affine::Pairing;
use dcx_answer::{CertFault, Stop};
use dcx_atom::{Array, number_at};
use dcx_point::{Point, Setting};
use dcx_tree::{Call, NodeId, Problem, Tree, kept_value};
use std::alloc::{AllocError, Global};

/// The divisor of a node, where it is a quotient.
fn divisor_of(tree: &Tree, node: NodeId) -> Option<NodeId>
    requires { node.0 < length tree.now }
    ensures { option_map (λ d. d.0) result ≡ divisor_in tree.now node.0 }
{
    match tree.call(node) {
        Call::Pairing(Pairing::Over) => tree.arg(node, 1),
        _ => None,
    }
}

/// Whether none of so many entries of a divisor is 0. `node` is that of the quotient.
fn test_divisor(node: NodeId, size: u32, divisor: &Array) -> Result<(), CertFault>
    ensures { Checked (each_below size (nonzero node.0 (number_at divisor.now.entries))) result }
{
    for entry in 0..size {
        if number_at(divisor.entries.as_slice(), entry as usize).is_zero() {
            return Err(CertFault::Fit(Stop::ZeroDivisor { node, entry }));
        }
    }
    Ok(())
}

/// Marks for the divisors of quotients.
fn divisor_marks(alloc: Global, tree: &Tree) -> Result<Vec<bool>, AllocError>
    ensures count { IfOk result (λ m. length m.items ≡ length tree.now) }
    ensures marked { IfOk result (λ m. (d : ℕ) → IsMarked m.items d ↔ IsDivisor tree.now d) }
{
    let mut marks = vec![in alloc; false; tree.nodes() as usize]?;
    for i in 0..tree.nodes() {
        match divisor_of(tree, NodeId(i)) {
            Some(divisor) => marks[divisor.0 as usize] = true,
            None => {}
        }
    }
    Ok(marks)
}

/// Marks for the divisors and for what they reach, as far as it isn't kept.
fn below_divisors(
    alloc: Global,
    problem: &Problem,
    arrays: &[Option<Array>],
) -> Result<Vec<bool>, AllocError>
    ensures sound { IfOk result (λ m. (i : ℕ) → IsMarked m.items i → IsBelowDivisor problem.now i) }
    ensures closed { IfOk result (λ m. AreClosed problem.now.tree arrays.now m.items) }
    ensures starts { IfOk result (λ m. (d : ℕ) → IsDivisor problem.now.tree d → IsMarked m.items d) }
{
    let mut marks = divisor_marks(alloc, &problem.tree)?;
    let end = problem.tree.nodes();
    mark_reached(alloc, &problem.tree, arrays, &mut marks, 0, end)?;
    Ok(marks)
}

/// Forms a node, if a divisor reaches it.
fn form_below(
    alloc: Global,
    problem: &Problem,
    node: NodeId,
    is_below: bool,
    setting: &Setting,
    values: &mut Values,
) -> Result<(), CertFault>
    requires there { node.0 < length problem.now.tree }
    requires below { is_below ≡ true → IsBelowDivisor problem.now node.0 }
    requires known { IsBelowDivisor problem.now node.0 → (is_below ≡ true) ⊎ IsSome (array_at values.old node.0) }
    requires given { (n : Node) → is_below ≡ true → IsNode problem.now.tree node.0 n → IsGiven n.call setting.now [] }
    requires args { is_below ≡ true → All (λ a. IsSome (array_at values.old a)) (args_at problem.now.tree node.0) }
    requires values { AreKeptValues problem.now setting.now [] values.old }
    ensures checked { Checked (forming_at problem.now setting.now [] (IsBelowDivisor problem.now) node.0) result }
    ensures kept { OnOk result (is_below ≡ true → IsSome (array_at values.new node.0)) }
    ensures values { AreKeptValues problem.now setting.now [] values.new }
    ensures stays { StaysKept values.old values.new }
    ensures only { (j : ℕ) → IsSome (array_at values.new j) → IsBelowDivisor problem.now j ⊎ IsSome (array_at values.old j) }
{
    if !is_below {
        return Ok(());
    }
    let point = Point::empty(alloc);
    values.form_node(alloc, problem, node, &point, setting)
}

/// Whether no entry of the divisor is 0, if the node is a quotient.
fn test_quotient(
    problem: &Problem,
    node: NodeId,
    setting: &Setting,
    values: &Values,
) -> Result<(), CertFault>
    requires there { node.0 < length problem.now.tree }
    requires divisor { (d : ℕ) → divisor_in problem.now.tree node.0 ≡ Some d → IsSome (array_at values.now d) }
    requires values { AreKeptValues problem.now setting.now [] values.now }
    ensures { Checked (dividing_at problem.now setting.now node.0) result }
{
    match divisor_of(&problem.tree, node) {
        Some(divisor) => test_divisor(
            node,
            problem.tree.shape(node).size(),
            kept_value(values.as_slice(), divisor),
        ),
        None => Ok(()),
    }
}

/// Forms a node, if a divisor reaches it, and tests the divisor, if the node is a quotient.
fn step(
    alloc: Global,
    problem: &Problem,
    node: NodeId,
    is_below: bool,
    setting: &Setting,
    values: &mut Values,
) -> Result<(), CertFault>
    requires there { node.0 < length problem.now.tree }
    requires below { is_below ≡ true → IsBelowDivisor problem.now node.0 }
    requires known { IsBelowDivisor problem.now node.0 → (is_below ≡ true) ⊎ IsSome (array_at values.old node.0) }
    requires given { (n : Node) → is_below ≡ true → IsNode problem.now.tree node.0 n → IsGiven n.call setting.now [] }
    requires args { is_below ≡ true → All (λ a. IsSome (array_at values.old a)) (args_at problem.now.tree node.0) }
    requires divisor { (d : ℕ) → divisor_in problem.now.tree node.0 ≡ Some d → IsSome (array_at values.old d) }
    requires values { AreKeptValues problem.now setting.now [] values.old }
    ensures checked { Checked (divisor_step problem.now setting.now node.0) result }
    ensures kept { OnOk result (is_below ≡ true → IsSome (array_at values.new node.0)) }
    ensures values { AreKeptValues problem.now setting.now [] values.new }
    ensures stays { StaysKept values.old values.new }
    ensures only { (j : ℕ) → IsSome (array_at values.new j) → IsBelowDivisor problem.now j ⊎ IsSome (array_at values.old j) }
{
    form_below(alloc, problem, node, is_below, setting, values)?;
    test_quotient(problem, node, setting, values)
}

/// Forms the values of the divisors of quotients and of the nodes below them, but for those that are kept, and tests each divisor at
/// its quotient, nodes and entries rising.
///
/// `Wide` tells the operation that passes 128 bits, and `Fit` the divisor entry that is 0.
pub fn divisors(
    alloc: Global,
    problem: &Problem,
    setting: &Setting,
    values: &mut Values,
) -> Result<(), CertFault>
    requires accepted { IsAccepted problem.now }
    requires parameters { GivesParameters problem.now setting.now }
    requires values { AreKeptValues problem.now setting.now [] values.old }
    ensures checked { Checked (divisors problem.now setting.now) result }
    ensures values { AreKeptValues problem.now setting.now [] values.new }
    ensures stays { StaysKept values.old values.new }
    ensures only { AreOnlyFixed problem.now values.old → AreOnlyFixed problem.now values.new }
{
    let marks = below_divisors(alloc, problem, values.as_slice())?;
    for i in 0..problem.tree.nodes() {
        let is_below = is_marked(&marks, NodeId(i));
        step(alloc, problem, NodeId(i), is_below, setting, values)?;
    }
    Ok(())
}
