//! How nodes come to the tree: operands, constants, promotions and calls, and the order in which they come.
ghost use Rattle.std.specs.Prelude.{◌≡◌, false, [], ◌∷◌, map, IfOk};
ghost use Rattle.std.specs.Option.{option_copied};
ghost use Rattle.dcx_shape.specs.Shape.{sides_of};
ghost use Rattle.dcx_arena.specs.Nodes.{positions, sides_at, call_at, AreNodes};
ghost use Rattle.dcx_call.specs.Calls.{shape_of};
ghost use Rattle.dcx_tree.specs.Problems.{IsListed};
ghost use Rattle.dcx_script_values.specs.Values.{and_then};
ghost use Rattle.dcx_script_values.specs.Nodes.{
  are_there,
  given_sides,
  push,
  pushed,
  all_pushed,
  promoted,
  all_promoted,
  operand_sides,
  common_shape,
  called,
  broadcast_called,
  subtracted,
  constrained,
};
ghost use Rattle.dcx_script_values.specs.View.{meant_operand, Gives};
ghost use Rattle.dcx_script_state.specs.Declarations.{is_declaration};

use crate::state::State;
use dcx_affine::{Minus, Plus, Promote};
use dcx_arena::NodeId;
use dcx_array::common_shape;
use dcx_atom::copy_array;
use dcx_call::{Call, LinearCall};
use dcx_script_values::{ElabFault, Operand, tree_fault};
use dcx_shape::{Place, Shape};
use dcx_tree::{Constraint, Kind, Tree};
use std::alloc::AllocError;

/// Whether these are all nodes of the tree.
fn are_there(tree: &Tree, args: &[NodeId]) -> bool
    ensures told { result ≡ are_there tree.now (positions args.now) }
    ensures nodes { AreNodes shape_of tree.now }
{
    let count = tree.nodes();
    for arg in args {
        if arg.0 >= count {
            return false;
        }
    }
    true
}

impl State {
    /// The node of this call and these arguments, which is added where there is none. Variables and parameters come by
    /// their declarations.
    ///
    /// `BadArgument` where an argument is no node, `ShapeClash` where the call has no value for arguments of these shapes,
    /// `TooMany` where a node would be added and there would be too many nodes or entries.
    pub fn push(&mut self, place: Place, call: Call, args: &[NodeId]) -> Result<NodeId, ElabFault>
        requires { is_declaration call ≡ false }
        ensures { Gives (λ i. i.0) result self.new (push place call (positions args.now) self.old) }
    {
        self.put(place, call, args)
    }

    /// The same of any call, where a variable or a parameter is declared already.
    pub(crate) fn put(
        &mut self,
        place: Place,
        call: Call,
        args: &[NodeId],
    ) -> Result<NodeId, ElabFault>
        requires { IsListed self.old.variables self.old.parameters call }
        ensures { Gives (λ i. i.0) result self.new (push place call (positions args.now) self.old) }
    {
        if !are_there(&self.tree, args) {
            return Err(ElabFault::BadArgument(place));
        }
        match self.tree.push(call, args, place) {
            Ok(node) => Ok(node),
            Err(fault) => Err(tree_fault(place, fault)),
        }
    }

    /// The call of a node; None where there is no such node.
    pub fn call(&self, node: NodeId) -> Option<&Call>
        ensures { option_copied result ≡ call_at self.now.nodes node.0 }
    {
        if node.0 >= self.tree.nodes() {
            return None;
        }
        Some(self.tree.call(node))
    }

    /// The shape of a node; that of a number where there is no such node.
    pub fn shape(&self, node: NodeId) -> Shape
        ensures { sides_of result ≡ sides_at self.now.nodes node.0 }
    {
        if node.0 >= self.tree.nodes() {
            return Shape::scalar();
        }
        self.tree.shape(node)
    }

    /// The shape of an operand.
    pub fn operand_shape(&self, operand: &Operand) -> Shape
        ensures { sides_of result ≡ operand_sides self.now.nodes (meant_operand operand.now) }
    {
        match operand {
            Operand::Standing(node) => self.shape(*node),
            Operand::Constant(array) => array.shape,
        }
    }

    /// The shapes of operands in order.
    fn shapes(&self, operands: &[Operand]) -> Result<Vec<Shape>, AllocError>
        ensures { IfOk result (λ v. map sides_of v.items ≡ map (operand_sides self.now.nodes) (map meant_operand operands.now)) }
    {
        let mut shapes = Vec::with_capacity(self.alloc, operands.len())?;
        for operand in operands {
            shapes.push(self.operand_shape(operand))?;
        }
        Ok(shapes)
    }

    /// The node of an operand, where numbers become a constant.
    pub fn pushed(&mut self, place: Place, operand: &Operand) -> Result<NodeId, ElabFault>
        ensures { Gives (λ i. i.0) result self.new (pushed place (meant_operand operand.now) self.old) }
    {
        match operand {
            Operand::Standing(node) => Ok(*node),
            Operand::Constant(array) => {
                let call = Call::Constant(copy_array(self.alloc, array)?);
                self.push(place, call, &[])
            }
        }
    }

    /// The nodes of operands: their constants in order.
    fn all_pushed(&mut self, place: Place, operands: &[Operand]) -> Result<Vec<NodeId>, ElabFault>
        ensures { Gives (λ v. positions v.items) result self.new (all_pushed place (map meant_operand operands.now) self.old) }
    {
        let mut nodes = Vec::with_capacity(self.alloc, operands.len())?;
        for operand in operands {
            nodes.push(self.pushed(place, operand)?)?;
        }
        Ok(nodes)
    }

    /// A node of this shape: the node itself where it has the shape, else its promotion.
    fn promoted(&mut self, place: Place, to: Shape, node: NodeId) -> Result<NodeId, ElabFault>
        ensures { Gives (λ i. i.0) result self.new (promoted place to node.0 self.old) }
    {
        if self.shape(node) == to {
            return Ok(node);
        }
        let call = Call::Linear(LinearCall::Promote(Promote { to }));
        self.push(place, call, &[node])
    }

    /// The promotions of nodes in order.
    fn all_promoted(
        &mut self,
        place: Place,
        to: Shape,
        nodes: &[NodeId],
    ) -> Result<Vec<NodeId>, ElabFault>
        ensures { Gives (λ v. positions v.items) result self.new (all_promoted place to (positions nodes.now) self.old) }
    {
        let mut promoted = Vec::with_capacity(self.alloc, nodes.len())?;
        for node in nodes {
            promoted.push(self.promoted(place, to, *node)?)?;
        }
        Ok(promoted)
    }

    /// The node of a call. Its shape is tested before anything comes to the tree, then come the constants in order, and
    /// then the call.
    ///
    /// `ShapeClash` where the call has no value for operands of these shapes, else the faults of `push`.
    pub fn called(
        &mut self,
        place: Place,
        call: Call,
        operands: &[Operand],
    ) -> Result<NodeId, ElabFault>
        requires { is_declaration call ≡ false }
        ensures { Gives (λ i. i.0) result self.new (called place call (map meant_operand operands.now) self.old) }
    {
        let args = self.called_args(place, &call, operands)?;
        self.push(place, call, &args)
    }

    /// The arguments of a call, whose shape is tested before anything comes to the tree.
    fn called_args(
        &mut self,
        place: Place,
        call: &Call,
        operands: &[Operand],
    ) -> Result<Vec<NodeId>, ElabFault>
        ensures { Gives (λ v. positions v.items) result self.new (and_then (given_sides place call.now
            (map (operand_sides self.old.nodes) (map meant_operand operands.now)) self.old) (λ _. all_pushed place (map meant_operand operands.now))) }
    {
        let shapes = self.shapes(operands)?;
        if call.shape(&shapes).is_none() {
            return Err(ElabFault::ShapeClash(place));
        }
        self.all_pushed(place, operands)
    }

    /// The node of a call of operands that broadcast: the constants in order, the promotions in order, and then the call.
    ///
    /// `ShapeClash` where they don't broadcast, or to more entries than an expression may have; else the faults of `push`.
    pub fn broadcast_called(
        &mut self,
        place: Place,
        call: Call,
        operands: &[Operand],
    ) -> Result<NodeId, ElabFault>
        requires { is_declaration call ≡ false }
        ensures { Gives (λ i. i.0) result self.new (broadcast_called place call (map meant_operand operands.now) self.old) }
    {
        let args = self.broadcast_args(place, operands)?;
        self.push(place, call, &args)
    }

    /// The arguments of a call of operands that broadcast: their promotions in order.
    fn broadcast_args(
        &mut self,
        place: Place,
        operands: &[Operand],
    ) -> Result<Vec<NodeId>, ElabFault>
        ensures { Gives (λ v. positions v.items) result self.new (and_then (common_shape place (map meant_operand operands.now) self.old)
            (λ shape s. and_then (all_pushed place (map meant_operand operands.now) s) (all_promoted place shape))) }
    {
        let shape = self.shape_of_all(place, operands)?;
        let nodes = self.all_pushed(place, operands)?;
        self.all_promoted(place, shape, &nodes)
    }

    /// The shape that operands broadcast to, where an expression may have so many entries.
    fn shape_of_all(&self, place: Place, operands: &[Operand]) -> Result<Shape, ElabFault>
        ensures { Gives (λ s. s) result self.now (common_shape place (map meant_operand operands.now) self.now) }
    {
        let shapes = self.shapes(operands)?;
        match common_shape(&shapes) {
            Some(shape) => Ok(shape),
            None => Err(ElabFault::ShapeClash(place)),
        }
    }

    /// The shape that two operands broadcast to, where an expression may have so many entries.
    fn shape_of_two(
        &self,
        place: Place,
        left: &Operand,
        right: &Operand,
    ) -> Result<Shape, ElabFault>
        ensures { Gives (λ s. s) result self.now (common_shape place (meant_operand left.now ∷ meant_operand right.now ∷ []) self.now) }
    {
        let shapes = [self.operand_shape(left), self.operand_shape(right)];
        match common_shape(&shapes) {
            Some(shape) => Ok(shape),
            None => Err(ElabFault::ShapeClash(place)),
        }
    }

    /// The difference of two operands, which is the sum with the second one negated. Promotions come after the negation.
    pub fn subtracted(
        &mut self,
        place: Place,
        left: &Operand,
        right: &Operand,
    ) -> Result<NodeId, ElabFault>
        ensures { Gives (λ i. i.0) result self.new (subtracted place (meant_operand left.now) (meant_operand right.now) self.old) }
    {
        let shape = self.shape_of_two(place, left, right)?;
        let first = self.pushed(place, left)?;
        let second = self.pushed(place, right)?;
        let negated = self.push(place, Call::Linear(LinearCall::Minus(Minus)), &[second])?;
        let args = self.all_promoted(place, shape, &[first, negated])?;
        self.push(place, Call::Linear(LinearCall::Plus(Plus)), &args)
    }

    /// A constraint between two operands, the left one first.
    pub fn constrained(
        &mut self,
        place: Place,
        kind: Kind,
        left: &Operand,
        right: &Operand,
    ) -> Result<Constraint, ElabFault>
        ensures { Gives (λ c. c) result self.new (constrained place kind (meant_operand left.now) (meant_operand right.now) self.old) }
    {
        let shape = self.shape_of_two(place, left, right)?;
        let first = self.pushed(place, left)?;
        let second = self.pushed(place, right)?;
        let left = self.promoted(place, shape, first)?;
        let right = self.promoted(place, shape, second)?;
        Ok(Constraint {
            kind,
            left,
            right,
            shape,
            place,
        })
    }
}
