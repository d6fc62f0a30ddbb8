//! The value of a node at a point and a setting.
ghost use Rattle.std.specs.Prelude.{◌≡◌, ℕ, ◌<◌, ◌+◌, [], ◌∷◌, true, length, map, Some, All, IfOk, IfErr, IsSome, IsTrue, ◌↔◌};
ghost use Rattle.dcx_arena.specs.Nodes.{positions, AreNodes, IsNode, args_at};
ghost use Rattle.dcx_arena.specs.Gather.{has};
ghost use Rattle.dcx_arena.specs.Unfold.{IsReached};
ghost use Rattle.dcx_call.specs.Calls.{shape_of};
ghost use Rattle.dcx_call.specs.Values.{IsGiven};
ghost use Rattle.dcx_tree.specs.Nodes.{Node};
ghost use Rattle.dcx_tree.specs.Values.{AreGiven, IsValueOf, IsValueStop, IsMarked, array_at, AreValues, AreArguments, IsNodeStop};

use crate::reached::reached_from;
use crate::tree::Tree;
use dcx_arena::NodeId;
use dcx_atom::{Array, ValueStop, copy_array};
use dcx_point::{Point, Setting};
use std::alloc::{AllocError, Global};
use std::slice;

impl Tree {
    /// Whether the point gives each variable of the tree an array of its shape, and the setting each parameter.
    pub fn is_given(&self, point: &Point, setting: &Setting) -> bool
        ensures { IsTrue result ↔ ((i : ℕ) (n : Node) → IsNode self.now i n → IsGiven n.call setting.now point.now) }
    {
        for i in 0..self.nodes() {
            if !self.call(NodeId(i)).is_given(point, setting) {
                return false;
            }
        }
        true
    }

    /// The value of a node, where the point gives each variable its array, and the setting each parameter.
    ///
    /// The nodes that it reaches are formed in rising order, each once, and no others. `Passes` where an operation passes
    /// 128 bits, and `ZeroDivisor` where a divisor entry is 0: the first of both, node by node and entry by entry.
    pub fn value(
        &self,
        alloc: Global,
        node: NodeId,
        point: &Point,
        setting: &Setting,
    ) -> Result<Array, ValueStop>
        requires there { node.0 < length self.now }
        requires given { AreGiven self.now setting.now point.now node.0 }
        ensures ok { IfOk result (IsValueOf self.now setting.now point.now node.0) }
        ensures stop { IfErr result (IsValueStop self.now setting.now point.now node.0) }
    {
        let reached = match reached_from(alloc, self, &[node]) {
            Ok(reached) => reached,
            Err(_) => return Err(ValueStop::Memory),
        };
        let arrays = form_earlier(alloc, self, node, &reached, point, setting)?;
        node_value(alloc, self, node, &arrays, point, setting)
    }
}

/// The array that is kept for a node among those of a tree, by their places.
pub fn kept_value(arrays: &[Option<Array>], node: NodeId) -> &Array
    requires { IsSome (array_at arrays.now node.0) }
    ensures { array_at arrays.now node.0 ≡ Some result.now }
{
    match &arrays[node.0 as usize] {
        Some(array) => array,
        None => unreachable!(),
    }
}

/// Copies of the arrays that are kept for these nodes.
fn copies_of(
    alloc: Global,
    arrays: &[Option<Array>],
    ids: &[NodeId],
) -> Result<Vec<Array>, AllocError>
    requires { All (λ a. IsSome (array_at arrays.now a)) (positions ids.now) }
    ensures { IfOk result (λ v. map Some v.items ≡ map (array_at arrays.now) (positions ids.now)) }
{
    let mut copies = Vec::new(alloc);
    for id in ids {
        copies.push(copy_array(alloc, kept_value(arrays, *id))?)?;
    }
    Ok(copies)
}

/// The value of a node at the values of its arguments.
fn apply(
    alloc: Global,
    tree: &Tree,
    node: NodeId,
    args: &[Array],
    point: &Point,
    setting: &Setting,
) -> Result<Array, ValueStop>
    requires nodes { AreNodes shape_of tree.now }
    requires there { node.0 < length tree.now }
    requires given { (n : Node) → IsNode tree.now node.0 n → IsGiven n.call setting.now point.now }
    requires args { AreArguments tree.now setting.now point.now (args_at tree.now node.0) args.now }
    ensures ok { IfOk result (IsValueOf tree.now setting.now point.now node.0) }
    ensures stop { IfErr result (IsNodeStop tree.now setting.now point.now node.0) }
{
    tree.call(node).value(alloc, point, setting, args)
}

/// The value of a node, from what is kept of its arguments, by their places in the tree. An only argument is read in its
/// place. Several are copied, which takes no more steps than their call, which reads them all.
///
/// `Passes` where an operation passes 128 bits, and `ZeroDivisor` where a divisor entry is 0: the first of both.
pub fn node_value(
    alloc: Global,
    tree: &Tree,
    node: NodeId,
    arrays: &[Option<Array>],
    point: &Point,
    setting: &Setting,
) -> Result<Array, ValueStop>
    requires nodes { AreNodes shape_of tree.now }
    requires there { node.0 < length tree.now }
    requires given { (n : Node) → IsNode tree.now node.0 n → IsGiven n.call setting.now point.now }
    requires args { All (λ a. IsSome (array_at arrays.now a)) (args_at tree.now node.0) }
    requires values { AreValues tree.now setting.now point.now arrays.now }
    ensures ok { IfOk result (IsValueOf tree.now setting.now point.now node.0) }
    ensures stop { IfErr result (IsNodeStop tree.now setting.now point.now node.0) }
{
    let ids = match tree.args(alloc, node) {
        Ok(ids) => ids,
        Err(_) => return Err(ValueStop::Memory),
    };
    if ids.len() == 1 {
        let only = slice::from_ref(kept_value(arrays, ids[0]));
        return apply(alloc, tree, node, only, point, setting);
    }
    match copies_of(alloc, arrays, &ids) {
        Ok(args) => apply(alloc, tree, node, &args, point, setting),
        Err(_) => Err(ValueStop::Memory),
    }
}

/// The values of the nodes before this one that it reaches, in rising order.
fn form_earlier(
    alloc: Global,
    tree: &Tree,
    node: NodeId,
    reached: &[bool],
    point: &Point,
    setting: &Setting,
) -> Result<Vec<Option<Array>>, ValueStop>
    requires nodes { AreNodes shape_of tree.now }
    requires there { node.0 < length tree.now }
    requires given { AreGiven tree.now setting.now point.now node.0 }
    requires count { length reached.now ≡ length tree.now }
    requires marked { (i : ℕ) → IsMarked reached.now i ↔ IsReached tree.now (node.0 ∷ []) i }
    ensures some { IfOk result (λ a. (i : ℕ) → i < node.0 → IsReached tree.now (node.0 ∷ []) i → IsSome (array_at a.items i)) }
    ensures values { IfOk result (λ a. AreValues tree.now setting.now point.now a.items) }
    ensures stop { IfErr result (IsValueStop tree.now setting.now point.now node.0) }
{
    let mut arrays = Vec::new(alloc);
    for i in 0..node.0 {
        let array = if reached[i as usize] {
            Some(node_value(alloc, tree, NodeId(i), &arrays, point, setting)?)
        } else {
            None
        };
        match arrays.push(array) {
            Ok(()) => {}
            Err(_) => return Err(ValueStop::Memory),
        }
    }
    Ok(arrays)
}
