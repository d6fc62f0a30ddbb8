//! The values of a script. What can be long is shared, so that a value is handed on without a copy of what it holds.
ghost use Rattle.std.specs.Prelude.{◌≡◌, ◌≤◌, IfOk};
ghost use Rattle.dcx_shape.specs.Shape.{sides_of};
ghost use Rattle.dcx_script_values.specs.Values.{plain_count, counted, depth};
ghost use Rattle.dcx_script_values.specs.Meant.{meant};

use crate::items::Items;
use crate::progression::Progression;
use dcx_arena::NodeId;
use dcx_atom::Array;
use dcx_shape::{Bytes, Place, Sides};
use dcx_syntax::Module;
use dcx_tree::{Constraint, Sense};
use std::alloc::AllocError;
use std::rc::Rc;

/// What `cp.Minimize` and `cp.Maximize` give.
#[derive(Clone, Copy)]
pub struct Objective {
    /// What is asked.
    pub sense: Sense,
    /// The node, which has one entry.
    pub node: NodeId,
    /// Where the call stands.
    pub place: Place,
}

/// A value of a script.
#[cycle(values)]
#[derive(Drop)]
pub enum Value {
    /// A plain number, which is an array of one entry without a side, or a plain array.
    Plain(Rc<Array>),
    /// A text, as it stands in the script, with its quotes.
    Text(Rc<Bytes>),
    /// `True` or `False`.
    Truth(bool),
    /// `None`.
    Nothing,
    /// A tuple.
    Tuple(Rc<Items>),
    /// A list.
    List(Rc<Items>),
    /// What `range` gives, behind a pointer so that a value is small.
    Range(Rc<Progression>),
    /// A module that was imported.
    Library(Module),
    /// A node.
    Expression(NodeId),
    /// A demand on two nodes.
    Constraint(Constraint),
    /// An objective.
    Objective(Objective),
    /// The problem.
    Problem,
    /// What a solve gives.
    Result,
}

impl Value {
    /// The same value again, which shares what the value holds.
    pub fn share(&self) -> Result<Value, AllocError>
        ensures { IfOk result (λ v. meant v ≡ meant self.now) }
    {
        Ok(match self {
            Value::Plain(array) => Value::Plain(array.clone()?),
            Value::Text(text) => Value::Text(text.clone()?),
            Value::Truth(truth) => Value::Truth(*truth),
            Value::Nothing => Value::Nothing,
            Value::Tuple(items) => Value::Tuple(items.clone()?),
            Value::List(items) => Value::List(items.clone()?),
            Value::Range(range) => Value::Range(range.clone()?),
            Value::Library(module) => Value::Library(*module),
            Value::Expression(node) => Value::Expression(*node),
            Value::Constraint(constraint) => Value::Constraint(*constraint),
            Value::Objective(objective) => Value::Objective(*objective),
            Value::Problem => Value::Problem,
            Value::Result => Value::Result,
        })
    }

    /// What the value counts as an item: itself, and what a list, a tuple or a plain array holds.
    pub fn counted(&self) -> u32
        ensures told { result ≡ counted (meant self.now) }
        ensures most { result ≤ 20001 }
    {
        match self {
            Value::Plain(array) => plain_count(array),
            Value::Tuple(items) => 1 + items.count(),
            Value::List(items) => 1 + items.count(),
            _ => 1,
        }
    }

    /// How deep lists and tuples are nested in the value.
    pub fn depth(&self) -> u32
        ensures told { result ≡ depth (meant self.now) }
        ensures most { result ≤ 64 }
    {
        match self {
            Value::Tuple(items) => 1 + items.depth(),
            Value::List(items) => 1 + items.depth(),
            _ => 0,
        }
    }
}

/// What a plain number or array counts as an item.
fn plain_count(array: &Array) -> u32
    ensures told { result ≡ plain_count (sides_of array.now.shape) }
    ensures most { result ≤ 20001 }
{
    match array.shape.sides() {
        Sides::Scalar => 1,
        _ => 1 + array.shape.size(),
    }
}
