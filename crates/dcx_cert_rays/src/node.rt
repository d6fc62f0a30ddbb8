//! The steepness of one node, from that of its arguments.
ghost use Rattle.std.specs.Prelude.{◌≡◌, ◌⊎◌, ◌<◌, ℕ, true, pos, Some, length, map, IfOk, IfErr, IsSome, IsTrue, IsFalse, All};
ghost use Rattle.dcx_math.specs.Rational.{whole};
ghost use Rattle.dcx_shape.specs.Shape.{sides_of};
ghost use Rattle.dcx_atom.specs.Arrays.{number_at};
ghost use Rattle.dcx_arena.specs.Nodes.{positions, call_at, args_at};
ghost use Rattle.dcx_convex.specs.Rules.{Plain, argument, judgement_at};
ghost use Rattle.dcx_tree.specs.Values.{array_at};
ghost use Rattle.dcx_tree.specs.Meaning.{convex_problem};
ghost use Rattle.dcx_right.specs.Fixed.{is_fixed};
ghost use Rattle.dcx_cert_rays.specs.Steepness.{value_side, is_side, IsGiven, IsSteepness, IsUnformed, IsKnown, AreKept, IsArgument, AreArguments, AreReady, TakesArguments};

use crate::along::Along;
use dcx_affine::Pairing;
use dcx_answer::CertFault;
use dcx_atom::{Array, ValueStop, copy_array};
use dcx_call::Call;
use dcx_frac::{Frac, Fracs};
use dcx_shape::Shape;
use dcx_tree::{NodeId, kept_value};
use std::alloc::{AllocError, Global};
use std::slice;

/// Zeros in this shape.
fn zeros(alloc: Global, shape: Shape) -> Result<Array, AllocError>
    ensures shape { IfOk result (λ v. sides_of v.shape ≡ sides_of shape) }
    ensures numbers { IfOk result (λ v. (j : ℕ) → number_at v.entries j ≡ whole (pos 0)) }
{
    let entries = vec![in alloc; Frac::zero(); shape.size() as usize]?;
    Ok(Array {
        shape,
        entries: Fracs::from_vec(entries),
    })
}

/// The side of a product or a quotient that counts with its value: the divisor of a quotient, and of a product the side that has no
/// variable below it. `None` of another call.
fn value_side(call: &Call, first_fixed: bool) -> Option<usize>
    ensures { result ≡ value_side call.now first_fixed }
{
    match call {
        Call::Pairing(Pairing::Over) => Some(1),
        Call::Pairing(Pairing::Times | Pairing::MatTimes) => Some(if first_fixed { 0 } else { 1 }),
        Call::Variable(_)
        | Call::Parameter(_)
        | Call::Constant(_)
        | Call::Atom(_)
        | Call::Linear(_) => None,
    }
}

/// Whether argument `k` is that side.
fn is_side(side: Option<usize>, k: usize) -> bool
    ensures { result ≡ is_side side k }
{
    match side {
        Some(at) => k == at,
        None => false,
    }
}

/// The value of an argument where it counts with its value, and otherwise its steepness.
fn argument(
    alloc: Global,
    along: &Along,
    arrays: &[Option<Array>],
    counts: bool,
    node: NodeId,
) -> Result<Array, AllocError>
    requires given { IsGiven along.now.problem.now along.now.setting.now along.now.fixed.now along.now.values.now along.now.ray.now }
    requires kept { AreKept along.now.problem.now along.now.setting.now along.now.ray.now arrays.now }
    requires there { node.0 < length along.now.problem.now.tree }
    requires known { IsKnown along.now.problem.now arrays.now node.0 }
    requires fixed { IsTrue counts → IsTrue (is_fixed along.now.problem.now node.0) }
    ensures { IfOk result (IsArgument along.now.problem.now along.now.setting.now along.now.ray.now counts node.0) }
{
    if counts {
        return copy_array(alloc, kept_value(along.values, node));
    }
    if along.fixed[node.0 as usize] {
        return zeros(alloc, along.problem.tree.shape(node));
    }
    copy_array(alloc, kept_value(arrays, node))
}

/// The arrays of these arguments.
fn arguments(
    alloc: Global,
    along: &Along,
    arrays: &[Option<Array>],
    side: Option<usize>,
    ids: &[NodeId],
) -> Result<Vec<Array>, AllocError>
    requires given { IsGiven along.now.problem.now along.now.setting.now along.now.fixed.now along.now.values.now along.now.ray.now }
    requires kept { AreKept along.now.problem.now along.now.setting.now along.now.ray.now arrays.now }
    requires ready { AreReady along.now.problem.now side (positions ids.now) arrays.now }
    ensures { IfOk result (λ v. AreArguments along.now.problem.now along.now.setting.now along.now.ray.now side (positions ids.now) v.items) }
{
    let mut args = Vec::new(alloc);
    for (k, id) in ids.iter().enumerate() {
        args.push(argument(alloc, along, arrays, is_side(side, k), *id)?)?;
    }
    Ok(args)
}

/// Whether the first argument has no variable below it; true where there is none.
fn is_first_fixed(along: &Along, ids: &[NodeId]) -> bool
    requires given { IsGiven along.now.problem.now along.now.setting.now along.now.fixed.now along.now.values.now along.now.ray.now }
    requires there { All (λ a. a < length along.now.problem.now.tree) (positions ids.now) }
    ensures { result ≡ (argument (map (judgement_at Plain (convex_problem along.now.problem.now).nodes) (positions ids.now)) 0).fixed }
{
    match ids {
        [] => true,
        [first, ..] => along.fixed[first.0 as usize],
    }
}

/// The value of a node's call at these arrays of its arguments.
fn apply(alloc: Global, along: &Along, node: NodeId, args: &[Array]) -> Result<Array, CertFault>
    requires given { IsGiven along.now.problem.now along.now.setting.now along.now.fixed.now along.now.values.now along.now.ray.now }
    requires there { node.0 < length along.now.problem.now.tree }
    requires moves { IsFalse (is_fixed along.now.problem.now node.0) }
    requires args { TakesArguments along.now.problem.now along.now.setting.now along.now.ray.now node.0 args.now }
    ensures ok { IfOk result (IsSteepness along.now.problem.now along.now.setting.now along.now.ray.now node.0) }
    ensures stop { IfErr result (λ f. (f ≡ CertFault.Memory) ⊎ IsUnformed along.now.problem.now along.now.setting.now along.now.ray.now node.0 f) }
{
    let call = along.problem.tree.call(node);
    match call.value(alloc, along.ray, along.setting, args) {
        Ok(array) => Ok(array),
        Err(ValueStop::Passes { entry: _, passes }) => Err(CertFault::Wide(passes)),
        Err(ValueStop::ZeroDivisor { entry: _ }) => unreachable!(),
        Err(ValueStop::Memory) => Err(CertFault::Memory),
    }
}

/// The steepness of a node that has a variable below it, from what is known of its arguments. An only argument is read in its
/// place. Several are copied, which takes no more steps than their call, which reads them all.
pub(crate) fn form(
    alloc: Global,
    along: &Along,
    arrays: &[Option<Array>],
    node: NodeId,
) -> Result<Array, CertFault>
    requires given { IsGiven along.now.problem.now along.now.setting.now along.now.fixed.now along.now.values.now along.now.ray.now }
    requires kept { AreKept along.now.problem.now along.now.setting.now along.now.ray.now arrays.now }
    requires there { node.0 < length along.now.problem.now.tree }
    requires moves { IsFalse (is_fixed along.now.problem.now node.0) }
    requires known { All (IsKnown along.now.problem.now arrays.now) (args_at along.now.problem.now.tree node.0) }
    ensures ok { IfOk result (IsSteepness along.now.problem.now along.now.setting.now along.now.ray.now node.0) }
    ensures stop { IfErr result (λ f. (f ≡ CertFault.Memory) ⊎ IsUnformed along.now.problem.now along.now.setting.now along.now.ray.now node.0 f) }
{
    let ids = match along.problem.tree.args(alloc, node) {
        Ok(ids) => ids,
        Err(_) => return Err(CertFault::Memory),
    };
    if ids.len() == 1 {
        let only = slice::from_ref(kept_value(arrays, ids[0]));
        return apply(alloc, along, node, only);
    }
    let side = value_side(along.problem.tree.call(node), is_first_fixed(along, &ids));
    match arguments(alloc, along, arrays, side, &ids) {
        Ok(args) => apply(alloc, along, node, &args),
        Err(_) => Err(CertFault::Memory),
    }
}
