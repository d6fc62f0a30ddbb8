//! The value of a node that is a number by the rules.
ghost use Rattle.std.specs.Prelude.{◌≡◌, ℕ, ◌<◌, ◌≤◌, ◌++◌, [], ◌∷◌, length, IfOk, IfSome, OnOk};
ghost use Rattle.std.specs.List.{All};
ghost use Rattle.dcx_shape.specs.Shape.{sides_of};
ghost use Rattle.dcx_frac.specs.Frac.{value};
ghost use Rattle.dcx_atom.specs.declared.array.Array.{Array as ArrayOf};
ghost use Rattle.dcx_atom.specs.Arrays.{number_at};
ghost use Rattle.dcx_arena.specs.Nodes.{IsNode, positions, args_at, sides_at};
ghost use Rattle.dcx_call.specs.Values.{IsGiven};
ghost use Rattle.dcx_tree.specs.Nodes.{Node};
ghost use Rattle.dcx_entries.specs.Standing.{all_forms};
ghost use Rattle.dcx_nodes.specs.Formed.{IsOfSides, AreOfSides, ValueGives, ValueBy};
ghost use Rattle.dcx_nodes.specs.Numbers.{HasNumbersOf, AreOnlyNumbers, HaveNumbersOf};

use crate::given::Given;
use dcx_atom::{Array, ValueStop};
use dcx_entries::{Arguments, Standing, entry_at, entry_number};
use dcx_frac::Fracs;
use dcx_linear::Coef;
use dcx_point::Point;
use dcx_shape::Shape;
use dcx_tree::{NodeId, Tree};
use std::alloc::{AllocError, Global};
use std::slice;

/// The numbers that the entries of a node of this shape are, and 0 where one is none.
fn numbers_of<C: Coef>(
    alloc: Global,
    standing: &Standing<C>,
    shape: Shape,
) -> Result<Array, AllocError>
    requires { IsOfSides (sides_of shape) standing.now }
    ensures shape { IfOk result (λ x. sides_of x.shape ≡ sides_of shape) }
    ensures numbers { IfOk result (λ x. HasNumbersOf C.of_number C.number_of standing.now x) }
{
    let mut numbers = Vec::new(alloc);
    'entries: for entry in 0..shape.size() {
        numbers.push(entry_number(&entry_at(standing, entry)))?;
    }
    Ok(Array {
        shape,
        entries: Fracs::from_vec(numbers),
    })
}

/// Adds the numbers that the entries of a node of this shape are, and 0 where one is none.
fn push_numbers<C: Coef>(
    alloc: Global,
    arrays: &mut Vec<Array>,
    standing: &Standing<C>,
    shape: Shape,
) -> Result<(), AllocError>
    requires { IsOfSides (sides_of shape) standing.now }
    ensures { OnOk result ((x : ArrayOf) × (arrays.new.items ≡ arrays.old.items ++ x ∷ []) × (sides_of x.shape ≡ sides_of shape) × HasNumbersOf C.of_number C.number_of standing.now x) }
{
    let numbers = numbers_of(alloc, standing, shape)?;
    arrays.push(numbers)?;
    Ok(())
}

/// The numbers that the arguments of a node are.
fn arrays_of<C: Coef>(
    alloc: Global,
    tree: &Tree,
    args: &Arguments<C>,
) -> Result<Vec<Array>, AllocError>
    requires before { All (λ a. a < length args.now.standing.now) (positions args.now.ids.now) }
    requires few { length args.now.standing.now ≤ length tree.now }
    requires sides { AreOfSides tree.now args.now.standing.now (positions args.now.ids.now) }
    ensures { IfOk result (λ v. HaveNumbersOf C.of_number C.number_of tree.now args.now.standing.now (positions args.now.ids.now) v.items) }
{
    let mut arrays = Vec::new(alloc);
    'ids: for id in args.ids {
        let standing = &args.standing[id.0 as usize];
        push_numbers(alloc, &mut arrays, standing, tree.shape(*id))?;
    }
    Ok(arrays)
}

/// The value of the only argument, where there is but one and it is a number by the rules.
fn only_value<'a, C: Coef>(args: &Arguments<'a, C>) -> Option<&'a Array>
    ensures { IfSome result (λ x. AreOnlyNumbers args.now.standing.now (positions args.now.ids.now) x.now) }
{
    match args.ids {
        [id] => match args.standing.get(id.0 as usize) {
            Some(Standing::Numbers(array)) => Some(array),
            _ => None,
        },
        _ => None,
    }
}

/// The value of a node that is a number by the rules, at a point without values. An only argument is read in its place.
fn value_at_point<C: Coef>(
    alloc: Global,
    given: &Given,
    node: NodeId,
    args: &Arguments<C>,
    point: &Point,
) -> Result<Array, ValueStop>
    requires there { node.0 < length given.now.problem.now.tree }
    requires ids { positions args.now.ids.now ≡ args_at given.now.problem.now.tree node.0 }
    requires before { length args.now.standing.now ≡ node.0 }
    requires sides { AreOfSides given.now.problem.now.tree args.now.standing.now (positions args.now.ids.now) }
    requires given { (n : Node) → IsNode given.now.problem.now.tree node.0 n → IsGiven n.call given.now.setting.now [] }
    requires point { point.now ≡ [] }
    ensures sides { IfOk result (λ x. sides_of x.shape ≡ sides_at given.now.problem.now.tree node.0) }
    ensures value { ValueBy C.of_number result (ValueGives C.of_number C.number_of C.sum_gives C.change_gives C.parameter_gives given.now.problem.now given.now.setting.now
        (all_forms C.of_number args.now.standing.now) node.0) }
{
    let tree = &given.problem.tree;
    if let Some(array) = only_value(args) {
        let only = slice::from_ref(array);
        return tree.call(node).value(alloc, point, given.setting, only);
    }
    match arrays_of(alloc, tree, args) {
        Ok(arrays) => tree.call(node).value(alloc, point, given.setting, &arrays),
        Err(_) => Err(ValueStop::Memory),
    }
}

/// The value of a node that is a number by the rules.
///
/// `Passes` where an operation passes 128 bits, and `ZeroDivisor` where a divisor is 0: the first of both, entry by entry.
pub(crate) fn node_value<C: Coef>(
    alloc: Global,
    given: &Given,
    node: NodeId,
    args: &Arguments<C>,
) -> Result<Array, ValueStop>
    requires there { node.0 < length given.now.problem.now.tree }
    requires ids { positions args.now.ids.now ≡ args_at given.now.problem.now.tree node.0 }
    requires before { length args.now.standing.now ≡ node.0 }
    requires sides { AreOfSides given.now.problem.now.tree args.now.standing.now (positions args.now.ids.now) }
    requires given { (n : Node) → IsNode given.now.problem.now.tree node.0 n → IsGiven n.call given.now.setting.now [] }
    ensures sides { IfOk result (λ x. sides_of x.shape ≡ sides_at given.now.problem.now.tree node.0) }
    ensures value { ValueBy C.of_number result (ValueGives C.of_number C.number_of C.sum_gives C.change_gives C.parameter_gives given.now.problem.now given.now.setting.now
        (all_forms C.of_number args.now.standing.now) node.0) }
{
    let point = Point::empty(alloc);
    let value = value_at_point(alloc, given, node, args, &point);
    drop(point);
    value
}
