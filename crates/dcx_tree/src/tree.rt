//! The tree of a problem's expressions, seen by contracts as the list of its nodes.
ghost use Rattle.std.specs.Prelude.{◌≡◌, ◌<◌, [], length, map, Some, All, IfOk, OnOk, OnErr, option_map, slice_get};
ghost use Rattle.dcx_shape.specs.Shape.{sides_of};
ghost use Rattle.dcx_arena.specs.Gather.{IsGathered};
ghost use Rattle.dcx_arena.specs.Nodes.{positions, AreNodes, IsPushed, call_at, args_at, sides_at, place_at};
ghost use Rattle.dcx_call.specs.Calls.{shape_of};

use dcx_arena::{NodeId, TreeFault};
use dcx_call::Call;
use dcx_shape::{Place, Shape};
use std::alloc::{AllocError, Global};
use std::marker::Model;

/// Expressions by their nodes, numbered from 0. Equal expressions are one node, and arguments stand before their call.
#[derive(Drop)]
pub struct Tree {
    arena: dcx_arena::Tree<Call>,
}

impl Model for Tree {
    ghost use Rattle.std.specs.Prelude.{List};
    ghost use Rattle.dcx_arena.specs.Nodes.{Node};
    ghost use Rattle.dcx_call.specs.declared.call.Call.{Call};
    ghost use Rattle.dcx_arena.specs.Nodes.{AreNodes};
    ghost use Rattle.dcx_call.specs.Calls.{shape_of};

    ghost Value = { List (Node Call) };

    ghost view = { λ t. t.arena };

    ghost invariant = { λ t. AreNodes shape_of t.arena };
}

impl Tree {
    /// A tree without nodes. Takes no memory.
    pub fn new(alloc: Global) -> Tree
        ensures { result ≡ [] }
    {
        Tree {
            arena: dcx_arena::Tree::new(alloc),
        }
    }

    /// The node of this call and these arguments, which is added where there is none.
    ///
    /// `Clash` where the call has no value for arguments of these shapes, `TooMany` where a node would be added and there
    /// would be more than 20,000 nodes, or else more than 20,000 entries over all nodes. The tree is then as it was.
    pub fn push(&mut self, call: Call, args: &[NodeId], place: Place) -> Result<NodeId, TreeFault>
        requires { All (λ a. a < length self.old) (positions args.now) }
        ensures pushed { IsPushed shape_of self.old call (positions args.now) place result self.new }
        ensures same { OnErr result (self.new ≡ self.old) }
        ensures nodes { AreNodes shape_of self.new }
    {
        self.arena.push(call, args, place)
    }

    /// How many nodes there are, at most 20,000.
    pub fn nodes(&self) -> u32
        ensures count { result ≡ length self.now }
        ensures nodes { AreNodes shape_of self.now }
    {
        self.arena.nodes()
    }

    /// The call of a node.
    pub fn call(&self, node: NodeId) -> &Call
        requires { node.0 < length self.now }
        ensures { call_at self.now node.0 ≡ Some result.now }
    {
        self.arena.call(node)
    }

    /// Argument `i` of a node, from 0; `None` where the tree doesn't have the node, or the node so many arguments.
    pub fn arg(&self, node: NodeId, i: u32) -> Option<NodeId>
        ensures { option_map (λ a. a.0) result ≡ slice_get (args_at self.now node.0) i }
    {
        self.arena.arg(node, i)
    }

    /// All arguments of a node, in order.
    pub fn args(&self, alloc: Global, node: NodeId) -> Result<Vec<NodeId>, AllocError>
        requires { node.0 < length self.now }
        ensures { IfOk result (λ v. positions v.items ≡ args_at self.now node.0) }
    {
        self.arena.args(alloc, node)
    }

    /// The shape of a node's value.
    pub fn shape(&self, node: NodeId) -> Shape
        requires { node.0 < length self.now }
        ensures { sides_of result ≡ sides_at self.now node.0 }
    {
        self.arena.shape(node)
    }

    /// The shapes of nodes, in order.
    pub fn shapes_of(&self, alloc: Global, nodes: &[NodeId]) -> Result<Vec<Shape>, AllocError>
        requires { All (λ a. a < length self.now) (positions nodes.now) }
        ensures { IfOk result (λ v. map sides_of v.items ≡ map (sides_at self.now) (positions nodes.now)) }
    {
        let mut shapes = Vec::new(alloc);
        for node in nodes {
            shapes.push(self.shape(*node))?;
        }
        Ok(shapes)
    }

    /// Where a node stands in the script.
    pub fn place(&self, node: NodeId) -> Place
        requires { node.0 < length self.now }
        ensures { place_at self.now node.0 ≡ Some result }
    {
        self.arena.place(node)
    }

    /// The part of the tree that the roots reach, and where the roots stand in it.
    pub(crate) fn gathered(
        &self,
        alloc: Global,
        roots: &[NodeId],
    ) -> Result<(Tree, Vec<NodeId>), AllocError>
        requires { All (λ r. r < length self.now) (positions roots.now) }
        ensures gathered { IfOk result (λ r. IsGathered self.now (positions roots.now) r.0 (positions r.1.items)) }
        ensures whole { OnOk result (AreNodes shape_of self.now) }
        ensures nodes { IfOk result (λ r. AreNodes shape_of r.0) }
    {
        let (arena, ends) = self.arena.gathered(alloc, roots)?;
        Ok((Tree { arena }, ends))
    }
}
