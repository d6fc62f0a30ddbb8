//! Attributes that aren't called: `.T` alone.
ghost use Rattle.std.specs.Prelude.{◌≡◌, codes};
ghost use Rattle.dcx_point.specs.Pairs.{same_name};
ghost use Rattle.dcx_script_values.specs.Values.{State as MeantState};
ghost use Rattle.dcx_script_values.specs.Meant.{meant};
ghost use Rattle.dcx_script_values.specs.View.{Gives};
ghost use Rattle.dcx_operators.specs.Attributes as meaning;

use dcx_affine::Transpose;
use dcx_arena::NodeId;
use dcx_array::transpose;
use dcx_atom::Array;
use dcx_call::{Call, LinearCall};
use dcx_script_state::State;
use dcx_script_values::{ElabFault, Value, as_plain};
use dcx_shape::{Name, Place, Sides};
use dcx_syntax::Named;
use std::alloc::Global;

/// Whether a name is that of the transpose.
fn is_transpose(name: &Name) -> bool
    ensures { result ≡ same_name name.now (codes "T") }
{
    name.as_slice() == "T".as_bytes()
}

/// The transpose of a node; a scalar and a vector are their own.
fn transposed_node(state: &mut State, place: Place, node: NodeId) -> Result<NodeId, ElabFault>
    ensures { Gives (λ i. i.0) result state.new (meaning.transposed_node place node.0 state.old) }
{
    match state.shape(node).sides() {
        Sides::Matrix(_, _) => {
            let call = Call::Linear(LinearCall::Transpose(Transpose));
            state.push(place, call, &[node])
        }
        Sides::Vector(_) => Ok(node),
        Sides::Scalar => Ok(node),
    }
}

/// The transpose of a plain array; a plain number has none.
fn transposed_plain(alloc: Global, place: Place, array: &Array) -> Result<Value, ElabFault>
    ensures { (s : MeantState) → Gives meant result s (meaning.transposed_plain place array.now s) }
{
    if array.shape.rank() == 0 {
        return Err(ElabFault::NotOffered(place));
    }
    as_plain(alloc, place, transpose(alloc, array))
}

/// An attribute of a value that isn't called, at the place of its name.
///
/// `NotOffered` of every name but `T`, and of what has no transpose; `TooMany` where there would be too much.
pub fn attribute_value(state: &mut State, name: &Named, value: Value) -> Result<Value, ElabFault>
    ensures { Gives meant result state.new (meaning.attribute_value name.now.place name.now.name (meant value) state.old) }
{
    let place = name.place;
    if !is_transpose(&name.name) {
        return Err(ElabFault::NotOffered(place));
    }
    match value {
        Value::Plain(array) => transposed_plain(state.alloc(), place, &array),
        Value::Expression(node) => Ok(Value::Expression(transposed_node(state, place, node)?)),
        _ => Err(ElabFault::NotOffered(place)),
    }
}
