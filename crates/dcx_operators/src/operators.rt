//! Operators on values of any kind: sums, products, signs and comparisons.
ghost use Rattle.std.specs.Prelude.{◌≡◌, ◌||◌, IfOk};
ghost use Rattle.dcx_arena.specs.Nodes.{positions};
ghost use Rattle.dcx_script_values.specs.Values.{State as MeantState, plain, list};
ghost use Rattle.dcx_script_values.specs.Kinds.{reading};
ghost use Rattle.dcx_script_values.specs.Meant.{meant};
ghost use Rattle.dcx_script_values.specs.View.{read_as, meant_operand, is_node, Gives};
ghost use Rattle.dcx_operators.specs.Operators as meaning;
ghost use Rattle.dcx_operators.specs.Operators.{with_expression};
ghost use Rattle.dcx_operators.specs.View.{pair_meant, operands_meant};

use crate::plain::{plain_added, plain_scaled};
use dcx_affine::{Minus, Pairing, Plus};
use dcx_arena::NodeId;
use dcx_array::negate;
use dcx_atom::{Array, copy_array};
use dcx_call::{Call, LinearCall};
use dcx_script_state::State;
use dcx_script_values::{
    ElabFault, Items, Operand, Reading, Value, as_plain, joined, operand_read, read_value,
};
use dcx_shape::Place;
use dcx_syntax::{Comparison, Scaling, Sign};
use dcx_tree::{Constraint, Kind};
use std::alloc::{AllocError, Global};
use std::rc::Rc;

// ---- two operands

/// Two values beside each other.
#[derive(Drop)]
enum Pair {
    /// Two plain numbers or arrays.
    Plain(Rc<Array>, Rc<Array>),
    /// Two lists.
    Lists(Rc<Items>, Rc<Items>),
    /// Two values of which one is an expression, as what they are where an expression is wanted.
    WithExpression(Reading, Reading),
    /// Values that no operator takes.
    Neither,
}

/// Whether a value is an expression.
fn is_expression(value: &Value) -> bool
    ensures { result ≡ is_node (meant value.now) }
{
    matches!(value, Value::Expression(_))
}

/// A plain number or array beside a value that is no expression.
fn alike_plain(left: Rc<Array>, right: Value) -> Pair
    ensures { pair_meant result ≡ meaning.alike (plain left.value) (meant right) }
{
    match right {
        Value::Plain(b) => Pair::Plain(left, b),
        _ => Pair::Neither,
    }
}

/// A list beside a value that is no expression.
fn alike_list(left: Rc<Items>, right: Value) -> Pair
    ensures { pair_meant result ≡ meaning.alike (list left.value) (meant right) }
{
    match right {
        Value::List(b) => Pair::Lists(left, b),
        _ => Pair::Neither,
    }
}

/// Two values of which none is an expression.
fn alike(left: Value, right: Value) -> Pair
    ensures { pair_meant result ≡ meaning.alike (meant left) (meant right) }
{
    match left {
        Value::Plain(a) => alike_plain(a, right),
        Value::List(a) => alike_list(a, right),
        _ => Pair::Neither,
    }
}

/// Whether one of two values is an expression.
fn has_expression(left: &Value, right: &Value) -> bool
    ensures { result ≡ is_node (meant left.now) || is_node (meant right.now) }
{
    is_expression(left) || is_expression(right)
}

/// Two values of which one is an expression.
fn beside_expression(alloc: Global, left: &Value, right: &Value) -> Result<Pair, AllocError>
    ensures { IfOk result (λ p. pair_meant p ≡ with_expression (reading (meant left.now)) (reading (meant right.now))) }
{
    let first = read_value(alloc, left)?;
    let second = read_value(alloc, right)?;
    Ok(Pair::WithExpression(first, second))
}

/// Two values beside each other.
fn beside(alloc: Global, left: Value, right: Value) -> Result<Pair, AllocError>
    ensures { IfOk result (λ p. pair_meant p ≡ meaning.beside (meant left) (meant right)) }
{
    if has_expression(&left, &right) {
        return beside_expression(alloc, &left, &right);
    }
    Ok(alike(left, right))
}

/// The operands that are read, the left one first.
fn both_read(place: Place, left: Reading, right: Reading) -> Result<(Operand, Operand), ElabFault>
    ensures { (s : MeantState) → Gives operands_meant result s (meaning.both_read place (read_as left) (read_as right) s) }
{
    let a = operand_read(place, left)?;
    let b = operand_read(place, right)?;
    Ok((a, b))
}

// ---- `+` and `-`

/// The sum or the difference of two operands.
fn operands_added(
    state: &mut State,
    sign: Sign,
    place: Place,
    left: Operand,
    right: Operand,
) -> Result<NodeId, ElabFault>
    ensures { Gives (λ i. i.0) result state.new (meaning.operands_added sign place (meant_operand left) (meant_operand right) state.old) }
{
    match sign {
        Sign::Plus => {
            let call = Call::Linear(LinearCall::Plus(Plus));
            state.broadcast_called(place, call, &[left, right])
        }
        Sign::Minus => state.subtracted(place, &left, &right),
    }
}

/// What is added of two values of which one is an expression.
fn readings_added(
    state: &mut State,
    sign: Sign,
    place: Place,
    left: Reading,
    right: Reading,
) -> Result<NodeId, ElabFault>
    ensures { Gives (λ i. i.0) result state.new (meaning.both place (meaning.operands_added sign place) (read_as left) (read_as right) state.old) }
{
    let (a, b) = both_read(place, left, right)?;
    operands_added(state, sign, place, a, b)
}

/// One list after the other; lists aren't subtracted.
fn lists_added(
    alloc: Global,
    sign: Sign,
    place: Place,
    left: Rc<Items>,
    right: Rc<Items>,
) -> Result<Value, ElabFault>
    ensures { (s : MeantState) → Gives meant result s (meaning.lists_added sign place left.value right.value s) }
{
    match sign {
        Sign::Plus => Ok(Value::List(joined(alloc, place, left, &right)?)),
        Sign::Minus => Err(ElabFault::BadArgument(place)),
    }
}

/// The sum or the difference of a pair of values.
fn pair_added(state: &mut State, sign: Sign, place: Place, pair: Pair) -> Result<Value, ElabFault>
    ensures { Gives meant result state.new (meaning.added_pair sign place (pair_meant pair) state.old) }
{
    let alloc = state.alloc();
    match pair {
        Pair::Plain(a, b) => as_plain(alloc, place, plain_added(alloc, sign, &a, &b)),
        Pair::Lists(a, b) => lists_added(alloc, sign, place, a, b),
        Pair::WithExpression(a, b) => {
            Ok(Value::Expression(readings_added(state, sign, place, a, b)?))
        }
        Pair::Neither => Err(ElabFault::BadArgument(place)),
    }
}

/// The sum or the difference of two values, whose `+` or `-` stands at the place.
///
/// `BadArgument` of values that are neither both plain, both lists, nor beside an expression, and of lists that are
/// subtracted; `NotOffered` of a nested list beside an expression, `EmptyResult` of an empty one; `ShapeClash` where shapes
/// don't broadcast; `TooMany` where there would be too much; `PlainWide` where a plain number passes 128 bits.
pub fn add_values(
    state: &mut State,
    sign: Sign,
    place: Place,
    left: Value,
    right: Value,
) -> Result<Value, ElabFault>
    ensures { Gives meant result state.new (meaning.add_values sign place (meant left) (meant right) state.old) }
{
    let pair = beside(state.alloc(), left, right)?;
    pair_added(state, sign, place, pair)
}

// ---- `*`, `/` and `@`

/// Whether an operand has one entry.
fn has_one_entry(state: &State, operand: &Operand) -> bool
    ensures { (meaning.has_one_entry (meant_operand operand.now) state.now) ≡ Ok (result, state.now) }
{
    state.operand_shape(operand).size() == 1
}

/// The product of two operands, of which one has one entry.
fn multiplied(
    state: &mut State,
    place: Place,
    left: Operand,
    right: Operand,
) -> Result<NodeId, ElabFault>
    ensures { Gives (λ i. i.0) result state.new (meaning.multiplied place (meant_operand left) (meant_operand right) state.old) }
{
    let has_factor = has_one_entry(state, &left) || has_one_entry(state, &right);
    if !has_factor {
        return Err(ElabFault::NotOffered(place));
    }
    state.broadcast_called(place, Call::Pairing(Pairing::Times), &[left, right])
}

/// The product or the quotient of two operands.
fn operands_scaled(
    state: &mut State,
    scaling: Scaling,
    place: Place,
    left: Operand,
    right: Operand,
) -> Result<NodeId, ElabFault>
    ensures { Gives (λ i. i.0) result state.new (meaning.operands_scaled scaling place (meant_operand left) (meant_operand right) state.old) }
{
    match scaling {
        Scaling::Times => multiplied(state, place, left, right),
        Scaling::Over => {
            state.broadcast_called(place, Call::Pairing(Pairing::Over), &[left, right])
        }
        Scaling::Matmul => state.called(place, Call::Pairing(Pairing::MatTimes), &[left, right]),
    }
}

/// What is scaled of two values of which one is an expression.
fn readings_scaled(
    state: &mut State,
    scaling: Scaling,
    place: Place,
    left: Reading,
    right: Reading,
) -> Result<NodeId, ElabFault>
    ensures { Gives (λ i. i.0) result state.new (meaning.both place (meaning.operands_scaled scaling place) (read_as left) (read_as right) state.old) }
{
    let (a, b) = both_read(place, left, right)?;
    operands_scaled(state, scaling, place, a, b)
}

/// The product or the quotient of a pair of values.
fn pair_scaled(
    state: &mut State,
    scaling: Scaling,
    place: Place,
    pair: Pair,
) -> Result<Value, ElabFault>
    ensures { Gives meant result state.new (meaning.scaled_pair scaling place (pair_meant pair) state.old) }
{
    let alloc = state.alloc();
    match pair {
        Pair::Plain(a, b) => as_plain(alloc, place, plain_scaled(alloc, scaling, &a, &b)),
        Pair::WithExpression(a, b) => {
            Ok(Value::Expression(readings_scaled(state, scaling, place, a, b)?))
        }
        Pair::Lists(_, _) => Err(ElabFault::BadArgument(place)),
        Pair::Neither => Err(ElabFault::BadArgument(place)),
    }
}

/// The product or the quotient of two values, whose `*`, `/` or `@` stands at the place.
///
/// The faults of `add_values`, and further `NotOffered` of a `*` beside an expression where no side has one entry, and
/// `BadArgument` of lists, and where a plain divisor has an entry that is 0.
pub fn scale_values(
    state: &mut State,
    scaling: Scaling,
    place: Place,
    left: Value,
    right: Value,
) -> Result<Value, ElabFault>
    ensures { Gives meant result state.new (meaning.scale_values scaling place (meant left) (meant right) state.old) }
{
    let pair = beside(state.alloc(), left, right)?;
    pair_scaled(state, scaling, place, pair)
}

// ---- a sign before a value

/// A plain array with a sign before it.
fn plain_signed(alloc: Global, sign: Sign, array: Rc<Array>) -> Result<Rc<Array>, AllocError>
    ensures { IfOk result (λ a. a.value ≡ meaning.plain_signed sign array.value) }
{
    match sign {
        Sign::Plus => Ok(array),
        Sign::Minus => Ok(Rc::new(alloc, negate(copy_array(alloc, &array)?))?),
    }
}

/// A node with a sign before it; with `+` it is the node itself.
fn node_signed(
    state: &mut State,
    sign: Sign,
    place: Place,
    node: NodeId,
) -> Result<NodeId, ElabFault>
    ensures { Gives (λ i. i.0) result state.new (meaning.node_signed sign place node.0 state.old) }
{
    match sign {
        Sign::Plus => Ok(node),
        Sign::Minus => state.push(place, Call::Linear(LinearCall::Minus(Minus)), &[node]),
    }
}

/// A value with a sign before it, which stands at the place.
///
/// `BadArgument` of a value that is neither plain nor an expression; `TooMany` where there would be too much.
pub fn sign_value(
    state: &mut State,
    sign: Sign,
    place: Place,
    value: Value,
) -> Result<Value, ElabFault>
    ensures { Gives meant result state.new (meaning.sign_value sign place (meant value) state.old) }
{
    match value {
        Value::Plain(array) => Ok(Value::Plain(plain_signed(state.alloc(), sign, array)?)),
        Value::Expression(node) => Ok(Value::Expression(node_signed(state, sign, place, node)?)),
        _ => Err(ElabFault::BadArgument(place)),
    }
}

// ---- comparisons

/// The constraint of a comparison of two operands; `a >= b` is `b <= a`.
fn operands_compared(
    state: &mut State,
    comparison: Comparison,
    place: Place,
    left: &Operand,
    right: &Operand,
) -> Result<Constraint, ElabFault>
    ensures { Gives (λ c. c) result state.new (meaning.operands_compared comparison place (meant_operand left.now) (meant_operand right.now) state.old) }
{
    match comparison {
        Comparison::AtMost => state.constrained(place, Kind::AtMost, left, right),
        Comparison::AtLeast => state.constrained(place, Kind::AtMost, right, left),
        Comparison::Equal => state.constrained(place, Kind::Equal, left, right),
        _ => Err(ElabFault::NotOffered(place)),
    }
}

/// What is compared of two values of which one is an expression.
fn readings_compared(
    state: &mut State,
    comparison: Comparison,
    place: Place,
    left: Reading,
    right: Reading,
) -> Result<Constraint, ElabFault>
    ensures { Gives (λ c. c) result state.new (meaning.both place (meaning.operands_compared comparison place) (read_as left) (read_as right) state.old) }
{
    let (a, b) = both_read(place, left, right)?;
    operands_compared(state, comparison, place, &a, &b)
}

/// Whether a comparison is offered.
fn is_offered(comparison: Comparison) -> bool
    ensures { result ≡ meaning.is_offered comparison }
{
    match comparison {
        Comparison::AtMost => true,
        Comparison::AtLeast => true,
        Comparison::Equal => true,
        _ => false,
    }
}

/// The constraint of a comparison of a pair of values.
fn pair_compared(
    state: &mut State,
    comparison: Comparison,
    place: Place,
    pair: Pair,
) -> Result<Value, ElabFault>
    ensures { Gives meant result state.new (meaning.compared_pair comparison place (pair_meant pair) state.old) }
{
    match pair {
        Pair::Plain(_, _) => Err(ElabFault::NotOffered(place)),
        Pair::WithExpression(a, b) => {
            let constraint = readings_compared(state, comparison, place, a, b)?;
            Ok(Value::Constraint(constraint))
        }
        Pair::Lists(_, _) => Err(ElabFault::BadArgument(place)),
        Pair::Neither => Err(ElabFault::BadArgument(place)),
    }
}

/// The constraint of a comparison of two values, whose sign stands at the place.
///
/// `NotOffered` of `<`, `>` and `!=`, whatever is compared, and of plain values; else the faults of `add_values`.
pub fn compare_values(
    state: &mut State,
    comparison: Comparison,
    place: Place,
    left: Value,
    right: Value,
) -> Result<Value, ElabFault>
    ensures { Gives meant result state.new (meaning.compare_values comparison place (meant left) (meant right) state.old) }
{
    if !is_offered(comparison) {
        return Err(ElabFault::NotOffered(place));
    }
    let pair = beside(state.alloc(), left, right)?;
    pair_compared(state, comparison, place, pair)
}
