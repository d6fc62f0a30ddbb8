//! Where the entries of nodes stand, and what a pass over nodes is given.
ghost use Rattle.std.specs.Prelude.{◌≡◌, ◌<◌, Some, IfOk, length, slice_get};
ghost use Rattle.dcx_arena.specs.Nodes.{positions};
ghost use Rattle.dcx_cert_collect.specs.Starts.{AreStarts, ArePlaces, place_of};

use dcx_atom::Array;
use dcx_tree::{NodeId, Tree};
use std::alloc::{AllocError, Global};

/// The nodes, where each begins in the list of all entries, and the values of those that reach no variable.
#[derive(Clone, Copy)]
pub struct Given<'a> {
    /// The nodes.
    pub tree: &'a Tree,
    /// Where each node begins, as `starts_of` tells.
    pub starts: &'a [u32],
    /// The value of each node that reaches no variable, and nothing for the others.
    pub values: &'a [Option<Array>],
}

/// The arguments of a node among the nodes.
#[derive(Clone, Copy)]
pub(crate) struct Places<'a> {
    /// The nodes.
    pub tree: &'a Tree,
    /// Where each node begins.
    pub starts: &'a [u32],
    /// The arguments.
    pub args: &'a [NodeId],
}

/// Where each node begins, its entries following those of the nodes before it.
pub fn starts_of(alloc: Global, tree: &Tree) -> Result<Vec<u32>, AllocError>
    ensures { IfOk result (λ v. AreStarts tree.now v.items) }
{
    let mut starts = Vec::new(alloc);
    let mut next = 0u32;
    for i in 0..tree.nodes() {
        starts.push(next)?;
        next += tree.shape(NodeId(i)).size();
    }
    Ok(starts)
}

/// Where an entry of a node stands; `None` where the node has no such entry.
pub(crate) fn place_of(tree: &Tree, starts: &[u32], node: NodeId, entry: u32) -> Option<usize>
    requires there { node.0 < length tree.now }
    requires starts { AreStarts tree.now starts.now }
    ensures { result ≡ place_of tree.now (Some node.0) entry }
{
    if entry >= tree.shape(node).size() {
        return None;
    }
    Some(starts[node.0 as usize] as usize + entry as usize)
}

impl Places<'_> {
    /// Where an entry of an argument stands; `None` where there is no such entry.
    pub(crate) fn place(&self, argument: usize, entry: u32) -> Option<usize>
        requires { ArePlaces self.now.tree.now self.now.starts.now (positions self.now.args.now) }
        ensures { result ≡ place_of self.now.tree.now (slice_get (positions self.now.args.now) argument) entry }
    {
        if argument < self.args.len() {
            place_of(self.tree, self.starts, self.args[argument], entry)
        } else {
            None
        }
    }
}
