//! The tree, seen by contracts as the list of its nodes.
ghost use Rattle.std.specs.Prelude.{◌≡◌, ◌<◌, [], length, Some, All, OnErr, IfOk, option_map, slice_get};
ghost use Rattle.dcx_shape.specs.Shape.{sides_of};
ghost use Rattle.dcx_arena.specs.Gather.{IsGathered};
ghost use Rattle.dcx_arena.specs.Nodes.{positions, AreNodes, IsPushed, call_at, args_at, sides_at, place_at};

use crate::fault::TreeFault;
use crate::gather::{numbers_of, part_of};
use crate::node::NodeId;
use crate::operator::Operator;
use crate::store::{self, Store, ids_in, node_in};
use crate::walk::finish_all;
use dcx_shape::{Place, Shape};
use std::alloc::{AllocError, Global};
use std::marker::Model;

/// Expressions by their nodes, numbered from 0. Equal expressions are one node, and arguments stand before their call.
#[derive(Drop)]
pub struct Tree<C: Operator> {
    store: Store<C>,
}

impl<C: Operator> Model for Tree<C> {
    ghost use Rattle.std.specs.Prelude.{List};
    ghost use Rattle.dcx_arena.specs.Nodes.{Node};

    ghost Value = { List (Node C) };

    ghost use Rattle.dcx_arena.specs.Chains.{nodes_in, IsSound};

    ghost view = { λ t. nodes_in t.store };

    ghost invariant = { λ t. IsSound C.gives C.bucket_of t.store };
}

impl<C: Operator> Tree<C> {
    /// A tree without nodes. Takes no memory.
    pub fn new(alloc: Global) -> Tree<C>
        ensures { result ≡ [] }
    {
        Tree {
            store: Store::new(alloc),
        }
    }

    /// The node of this call and these arguments, which is added where there is none.
    ///
    /// `Clash` where the call has no value for arguments of these shapes, `TooMany` where a node would be added and there
    /// would be more than 20,000 nodes, or else more than 20,000 entries over all nodes. The tree is then as it was.
    pub fn push(&mut self, call: C, args: &[NodeId], place: Place) -> Result<NodeId, TreeFault>
        requires { All (λ a. a < length self.old) (positions args.now) }
        ensures pushed { IsPushed C.gives self.old call (positions args.now) place result self.new }
        ensures same { OnErr result (self.new ≡ self.old) }
        ensures nodes { AreNodes C.gives self.new }
    {
        store::find_or_add(&mut self.store, call, args, place)
    }

    /// How many nodes there are, at most 20,000.
    pub fn nodes(&self) -> u32
        ensures count { result ≡ length self.now }
        ensures nodes { AreNodes C.gives self.now }
    {
        self.store.stored.len() as u32
    }

    /// The call of a node.
    pub fn call(&self, node: NodeId) -> &C
        requires { node.0 < length self.now }
        ensures { call_at self.now node.0 ≡ Some result.now }
    {
        &self.store.stored[node.0 as usize].call
    }

    /// The shape of a node's value.
    pub fn shape(&self, node: NodeId) -> Shape
        requires { node.0 < length self.now }
        ensures { sides_of result ≡ sides_at self.now node.0 }
    {
        self.store.stored[node.0 as usize].shape
    }

    /// Where a node stands in the script.
    pub fn place(&self, node: NodeId) -> Place
        requires { node.0 < length self.now }
        ensures { place_at self.now node.0 ≡ Some result }
    {
        self.store.stored[node.0 as usize].place
    }

    /// Argument `i` of a node, from 0; `None` where the tree doesn't have the node, or the node so many arguments.
    pub fn arg(&self, node: NodeId, i: u32) -> Option<NodeId>
        ensures { option_map (λ a. a.0) result ≡ slice_get (args_at self.now node.0) i }
    {
        let stored = self.store.stored.get(node.0 as usize)?;
        if i as usize >= stored.count {
            return None;
        }
        Some(NodeId(node_in(&self.store.cells, stored.count, stored.first, i)))
    }

    /// All arguments of a node, in order.
    pub fn args(&self, alloc: Global, node: NodeId) -> Result<Vec<NodeId>, AllocError>
        requires { node.0 < length self.now }
        ensures { IfOk result (λ v. positions v.items ≡ args_at self.now node.0) }
    {
        let stored = &self.store.stored[node.0 as usize];
        ids_in(alloc, &self.store.cells, stored.count, stored.first)
    }

    /// The part of the tree that the roots reach, and where the roots stand in it.
    ///
    /// Its nodes are numbered in the order in which they are first finished, root by root: arguments before their call,
    /// from left to right.
    pub fn gathered(
        &self,
        alloc: Global,
        roots: &[NodeId],
    ) -> Result<(Tree<C>, Vec<NodeId>), AllocError>
        requires { All (λ r. r < length self.now) (positions roots.now) }
        ensures gathered { IfOk result (λ r. IsGathered self.now (positions roots.now) r.0 (positions r.1.items)) }
        ensures nodes { IfOk result (λ r. AreNodes C.gives r.0) }
    {
        let finished = finish_all(alloc, &self.store, roots)?;
        let part = part_of(alloc, &finished, &self.store)?;
        let ends = numbers_of(alloc, &finished, roots)?;
        Ok((Tree { store: part }, ends))
    }
}
