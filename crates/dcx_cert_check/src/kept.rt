//! The array that is kept for a node.
ghost use Rattle.std.specs.Prelude.{◌≡◌, Some, IsSome};
ghost use Rattle.dcx_tree.specs.Values.{array_at};

use dcx_atom::Array;
use dcx_cert_values::Values;
use dcx_tree::NodeId;

/// The array that is kept for a node.
pub(crate) fn kept(values: &Values, node: NodeId) -> &Array
    requires { IsSome (array_at values.now node.0) }
    ensures { array_at values.now node.0 ≡ Some result.now }
{
    match values.get(node) {
        Some(array) => array,
        None => unreachable!(),
    }
}
