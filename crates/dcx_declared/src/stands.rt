//! Where a declared name stands in a script.
ghost use Rattle.std.specs.Prelude.{◌≡◌, ◌↔◌, ◌<◌, length, IsTrue, MatchOption, Some};
ghost use Rattle.dcx_point.specs.Pairs.{same_name};
ghost use Rattle.dcx_declared.specs.Stands.{name_of, IsNamedAt, LacksName, IsFirstNamed, StandsAt, HasName};

use dcx_shape::{Name, Place};
use dcx_tree::{Call, NodeId, Problem, Tree};

/// Whether two names are one.
fn is_same(name: &Name, other: &Name) -> bool
    ensures { result ≡ same_name name.now other.now }
{
    *name == *other
}

/// Whether a call declares the name.
fn declares(call: &Call, name: &Name) -> bool
    ensures { IsTrue result ↔ (name_of call.now ≡ Some name.now) }
{
    match call {
        Call::Variable(variable) => is_same(name, &variable.name),
        Call::Parameter(parameter) => is_same(name, &parameter.name),
        Call::Constant(_) | Call::Atom(_) | Call::Linear(_) | Call::Pairing(_) => false,
    }
}

/// Whether a node does.
fn is_named(tree: &Tree, i: u32, name: &Name) -> bool
    requires { i < length tree.now }
    ensures { IsTrue result ↔ IsNamedAt tree.now name.now i }
{
    declares(tree.call(NodeId(i)), name)
}

/// The first such node.
fn first_named(tree: &Tree, name: &Name) -> Option<NodeId>
    ensures { MatchOption result (LacksName tree.now name.now) (λ node. IsFirstNamed tree.now name.now node.0) }
{
    for i in 0..tree.nodes() {
        if is_named(tree, i, name) {
            return Some(NodeId(i));
        }
    }
    None
}

/// Where the variable or the parameter of this name stands, which the problem reaches.
pub fn place_of(problem: &Problem, name: &Name) -> Place
    requires { HasName problem.now name.now }
    ensures { StandsAt problem.now name.now result }
{
    let Some(node) = first_named(&problem.tree, name) else {
        unreachable!()
    };
    problem.tree.place(node)
}
