//! Marks for the nodes whose values are to be formed.
ghost use Rattle.std.specs.Prelude.{◌≡◌, ◌≢◌, ◌↔◌, ◌⊎◌, ℕ, ◌<◌, ◌≤◌, true, false, None, length, All, IfOk, OnOk, IsSome, slice_index_or};
ghost use Rattle.dcx_arena.specs.Nodes.{positions, AreNodes, args_at};
ghost use Rattle.dcx_arena.specs.Gather.{has};
ghost use Rattle.dcx_call.specs.Calls.{shape_of};
ghost use Rattle.dcx_tree.specs.Values.{IsMarked, array_at};
ghost use Rattle.dcx_cert_values.specs.Marks.{AreWithin, AreWanted, AreMarkedFrom, LiesBelow};
ghost use Rattle.dcx_cert_values.specs.Tables.{kept_if};

use dcx_atom::Array;
use dcx_tree::{NodeId, Tree};
use std::alloc::{AllocError, Global};

/// What is marked at a place, and nothing past the last mark.
fn mark_at(marks: &[bool], place: usize) -> bool
    ensures { result ≡ slice_index_or marks.now place false }
{
    marks.get(place).copied().unwrap_or(false)
}

/// What is marked at a node, and nothing past the last mark.
pub(crate) fn is_marked(marks: &[bool], node: NodeId) -> bool
    ensures { result ≡ slice_index_or marks.now node.0 false }
{
    mark_at(marks, node.0 as usize)
}

/// Whether the value of a node is kept.
pub(crate) fn is_kept(arrays: &[Option<Array>], node: NodeId) -> bool
    ensures kept { result ≡ true → IsSome (array_at arrays.now node.0) }
    ensures none { result ≡ false → array_at arrays.now node.0 ≡ None }
{
    match arrays.get(node.0 as usize) {
        Some(Some(_)) => true,
        _ => false,
    }
}

/// Keeps the values of the marked nodes alone.
pub(crate) fn keep_marked(arrays: &mut Vec<Option<Array>>, marks: &[bool])
    ensures count { length arrays.new.items ≡ length arrays.old.items }
    ensures each { (i : ℕ) → array_at arrays.new.items i ≡ kept_if (slice_index_or marks.now i false) (array_at arrays.old.items i) }
{
    for i in 0..arrays.len() {
        if !mark_at(marks, i) {
            arrays[i] = None;
        }
    }
}

/// Marks those of these nodes whose values aren't kept, and tells the lowest mark, or else `low`.
pub(crate) fn mark_unkept(
    arrays: &[Option<Array>],
    ids: &[NodeId],
    marks: &mut Vec<bool>,
    low: u32,
) -> u32
    requires room { All (λ a. a < length marks.old.items) (positions ids.now) }
    requires lowest { (j : ℕ) → IsMarked marks.old.items j → low ≤ j }
    ensures count { length marks.new.items ≡ length marks.old.items }
    ensures marked { (j : ℕ) → IsMarked marks.new.items j ↔ (IsMarked marks.old.items j ⊎ ((has (positions ids.now) j ≡ true) × (array_at arrays.now j ≡ None))) }
    ensures lowest { (j : ℕ) → IsMarked marks.new.items j → result ≤ j }
{
    let mut lowest = low;
    for id in ids {
        if !is_kept(arrays, *id) {
            marks[id.0 as usize] = true;
            if id.0 < lowest {
                lowest = id.0;
            }
        }
    }
    lowest
}

/// The place above each of these nodes whose value isn't kept, of so many nodes.
pub(crate) fn end_of(arrays: &[Option<Array>], ids: &[NodeId], nodes: u32) -> u32
    requires { All (λ a. a < nodes) (positions ids.now) }
    ensures most { result ≤ nodes }
    ensures above { (j : ℕ) → has (positions ids.now) j ≡ true → array_at arrays.now j ≡ None → j < result }
{
    let mut end = 0;
    for id in ids {
        if end <= id.0 && !is_kept(arrays, *id) {
            end = id.0 + 1;
        }
    }
    end
}

/// Marks what the marked nodes reach, as far as it isn't kept, and tells the lowest mark, or else `low`.
///
/// It goes down from `end`, above all marks, and stops where no mark is left below.
pub(crate) fn mark_reached(
    alloc: Global,
    tree: &Tree,
    arrays: &[Option<Array>],
    marks: &mut Vec<bool>,
    low: u32,
    end: u32,
) -> Result<u32, AllocError>
    requires nodes { AreNodes shape_of tree.now }
    requires count { length marks.old.items ≡ length tree.now }
    requires most { end ≤ length tree.now }
    requires within { AreWithin marks.old.items low end }
    ensures count { length marks.new.items ≡ length marks.old.items }
    ensures marked { OnOk result (AreWanted tree.now arrays.now marks.old.items marks.new.items) }
    ensures lowest { IfOk result (λ lowest. AreWithin marks.new.items lowest end) }
{
    let mut lowest = low;
    let mut at = end;
    while lowest < at {
        at -= 1;
        if is_marked(marks, NodeId(at)) {
            let args = tree.args(alloc, NodeId(at))?;
            lowest = mark_unkept(arrays, &args, marks, lowest);
        }
    }
    Ok(lowest)
}

/// Marks for what the roots below `end` reach, as far as it isn't kept, and the lowest mark, or else `end`.
pub(crate) fn wanted(
    alloc: Global,
    tree: &Tree,
    arrays: &[Option<Array>],
    roots: &[NodeId],
    end: u32,
) -> Result<(Vec<bool>, u32), AllocError>
    requires roots { All (λ r. r < length tree.now) (positions roots.now) }
    requires most { end ≤ length tree.now }
    requires above { (j : ℕ) → has (positions roots.now) j ≡ true → array_at arrays.now j ≡ None → j < end }
    ensures marked { IfOk result (λ m. AreMarkedFrom tree.now arrays.now (positions roots.now) m.0.items) }
    ensures within { IfOk result (λ m. AreWithin m.0.items m.1 end) }
{
    let mut marks = vec![in alloc; false; tree.nodes() as usize]?;
    let low = mark_unkept(arrays, roots, &mut marks, end);
    let lowest = mark_reached(alloc, tree, arrays, &mut marks, low, end)?;
    Ok((marks, lowest))
}
