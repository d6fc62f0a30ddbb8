//! Whether a setting has an array of its shape for each parameter.
ghost use Rattle.std.specs.Prelude.{◌≡◌, ℕ, ◌↔◌, IsTrue, IsSome};
ghost use Rattle.std.specs.List.{All};
ghost use Rattle.std.specs.Option.{option_copied, IsSomeAnd};
ghost use Rattle.dcx_shape.specs.Shape.{sides_of};
ghost use Rattle.dcx_arena.specs.Nodes.{IsNode};
ghost use Rattle.dcx_call.specs.Values.{HasArray};
ghost use Rattle.dcx_convex.specs.Rules.{Plain};
ghost use Rattle.dcx_tree.specs.Nodes.{Node};
ghost use Rattle.dcx_linear.specs.Parameters.{entry_of};
ghost use Rattle.dcx_graph.specs.Reducing.{IsGivenFor};

use dcx_atom::Array;
use dcx_call::Call;
use dcx_point::Setting;
use dcx_shape::Sides;
use dcx_tree::{NodeId, Parameter, Tree};

/// Whether there is an array, with these sides.
fn has_sides(array: Option<&Array>, sides: Sides) -> bool
    ensures { IsTrue result ↔ IsSomeAnd (option_copied array.entry) (λ x. sides_of x.shape ≡ sides) }
{
    match array {
        Some(array) => array.shape.sides() == sides,
        None => false,
    }
}

/// Whether there is one for a parameter.
fn has_array(setting: &Setting, parameter: &Parameter) -> bool
    ensures { IsTrue result ↔ HasArray setting.now parameter.now.name (sides_of parameter.now.shape) }
{
    has_sides(setting.get(&parameter.name), parameter.shape.sides())
}

/// Whether there is one for each of these.
pub(crate) fn have_arrays(setting: &Setting, parameters: &[Parameter]) -> bool
    ensures { IsTrue result ↔ All (λ q. HasArray setting.now q.name (sides_of q.shape)) parameters.now }
{
    'parameters: for parameter in parameters {
        if !has_array(setting, parameter) {
            return false;
        }
    }
    true
}

/// Whether there is one for a call, if that is a parameter.
fn is_given(setting: &Setting, call: &Call) -> bool
    ensures { IsTrue result ↔ IsGivenFor Plain (λ pairs name entry. IsSome (entry_of pairs name entry)) setting.now call.now }
{
    match call {
        Call::Variable(_) => true,
        Call::Parameter(parameter) => has_array(setting, parameter),
        Call::Constant(_) => true,
        Call::Atom(_) => true,
        Call::Linear(_) => true,
        Call::Pairing(_) => true,
    }
}

/// Whether there is one for each parameter of a tree.
pub(crate) fn are_given(setting: &Setting, tree: &Tree) -> bool
    ensures { IsTrue result ↔ ((i : ℕ) (n : Node) → IsNode tree.now i n → IsGivenFor Plain (λ pairs name entry. IsSome (entry_of pairs name entry)) setting.now n.call) }
{
    for i in 0..tree.nodes() {
        if !is_given(setting, tree.call(NodeId(i))) {
            return false;
        }
    }
    true
}
