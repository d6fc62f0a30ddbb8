//! A table with a place for the steepness of each node.
ghost use Rattle.std.specs.Prelude.{◌≡◌, ◌⊎◌, ◌<◌, ℕ, length, All, OnOk, IfOk, IfErr, IsSome, IsTrue, None, replicate};
ghost use Rattle.dcx_frac.specs.Frac.{value};
ghost use Rattle.dcx_arena.specs.Nodes.{positions, args_at};
ghost use Rattle.dcx_arena.specs.Unfold.{IsReached};
ghost use Rattle.dcx_cert_sections.specs.Checks.{Checked};
ghost use Rattle.dcx_cert_rays.specs.Steepness.{steepness_at, forming, IsGiven, IsUnformed, IsKnown, StaysKnown, AreKept};

use crate::along::Along;
use crate::node::form;
use dcx_answer::CertFault;
use dcx_atom::{Array, number_at};
use dcx_frac::Frac;
use dcx_tree::{NodeId, reached_from};
use std::alloc::{AllocError, Global};

/// A table for so many nodes, without arrays.
pub(crate) fn no_arrays(alloc: Global, count: u32) -> Result<Vec<Option<Array>>, AllocError>
    ensures { IfOk result (λ v. v.items ≡ replicate count None) }
{
    let mut arrays = Vec::new(alloc);
    for _ in 0..count {
        arrays.push(None)?;
    }
    Ok(arrays)
}

/// Forms the steepness of a node, unless it is known.
fn form_one(
    alloc: Global,
    along: &Along,
    arrays: &mut Vec<Option<Array>>,
    node: NodeId,
) -> Result<(), CertFault>
    requires given { IsGiven along.now.problem.now along.now.setting.now along.now.fixed.now along.now.values.now along.now.ray.now }
    requires kept { AreKept along.now.problem.now along.now.setting.now along.now.ray.now arrays.old.items }
    requires there { node.0 < length along.now.problem.now.tree }
    requires known { All (IsKnown along.now.problem.now arrays.old.items) (args_at along.now.problem.now.tree node.0) }
    ensures kept { OnOk result (AreKept along.now.problem.now along.now.setting.now along.now.ray.now arrays.new.items) }
    ensures stays { OnOk result (StaysKnown along.now.problem.now arrays.old.items arrays.new.items) }
    ensures known { OnOk result (IsKnown along.now.problem.now arrays.new.items node.0) }
    ensures stop { IfErr result (λ f. (f ≡ CertFault.Memory) ⊎ IsUnformed along.now.problem.now along.now.setting.now along.now.ray.now node.0 f) }
{
    if along.fixed[node.0 as usize] || arrays[node.0 as usize].is_some() {
        return Ok(());
    }
    let array = form(alloc, along, arrays, node)?;
    arrays[node.0 as usize] = Some(array);
    Ok(())
}

/// Whether the steepness of a node is known.
fn is_known(along: &Along, arrays: &[Option<Array>], node: NodeId) -> bool
    requires given { IsGiven along.now.problem.now along.now.setting.now along.now.fixed.now along.now.values.now along.now.ray.now }
    requires kept { AreKept along.now.problem.now along.now.setting.now along.now.ray.now arrays.now }
    requires there { node.0 < length along.now.problem.now.tree }
    ensures { IsTrue result → IsKnown along.now.problem.now arrays.now node.0 }
{
    along.fixed[node.0 as usize] || arrays[node.0 as usize].is_some()
}

/// Whether the steepness of all these nodes is known.
fn are_known(along: &Along, arrays: &[Option<Array>], nodes: &[NodeId]) -> bool
    requires given { IsGiven along.now.problem.now along.now.setting.now along.now.fixed.now along.now.values.now along.now.ray.now }
    requires kept { AreKept along.now.problem.now along.now.setting.now along.now.ray.now arrays.now }
    requires there { All (λ r. r < length along.now.problem.now.tree) (positions nodes.now) }
    ensures { IsTrue result → All (IsKnown along.now.problem.now arrays.now) (positions nodes.now) }
{
    for node in nodes {
        if !is_known(along, arrays, *node) {
            return false;
        }
    }
    true
}

/// Forms the steepness of the nodes that the roots reach, in rising order, where it isn't known.
pub(crate) fn form_below(
    alloc: Global,
    along: &Along,
    arrays: &mut Vec<Option<Array>>,
    roots: &[NodeId],
) -> Result<(), CertFault>
    requires given { IsGiven along.now.problem.now along.now.setting.now along.now.fixed.now along.now.values.now along.now.ray.now }
    requires kept { AreKept along.now.problem.now along.now.setting.now along.now.ray.now arrays.old.items }
    requires roots { All (λ r. r < length along.now.problem.now.tree) (positions roots.now) }
    ensures kept { OnOk result (AreKept along.now.problem.now along.now.setting.now along.now.ray.now arrays.new.items) }
    ensures known { OnOk result (All (IsKnown along.now.problem.now arrays.new.items) (positions roots.now)) }
    ensures checked { Checked (forming along.now.problem.now along.now.setting.now along.now.ray.now (positions roots.now)) result }
{
    if are_known(along, arrays, roots) {
        return Ok(());
    }
    let reached = reached_from(alloc, &along.problem.tree, roots)?;
    for i in 0..along.problem.tree.nodes() {
        if reached[i as usize] {
            form_one(alloc, along, arrays, NodeId(i))?;
        }
    }
    Ok(())
}

/// An entry of the steepness of a node, which is known.
pub(crate) fn steepness(along: &Along, arrays: &[Option<Array>], node: NodeId, entry: u32) -> Frac
    requires kept { AreKept along.now.problem.now along.now.setting.now along.now.ray.now arrays.now }
    requires there { node.0 < length along.now.problem.now.tree }
    requires known { IsKnown along.now.problem.now arrays.now node.0 }
    ensures { value result ≡ steepness_at along.now.problem.now along.now.setting.now along.now.ray.now node.0 entry }
{
    match &arrays[node.0 as usize] {
        Some(array) => number_at(array.entries.as_slice(), entry as usize),
        None => Frac::zero(),
    }
}
