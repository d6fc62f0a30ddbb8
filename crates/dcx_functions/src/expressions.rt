//! The calls that make a node.
ghost use Rattle.std.specs.Prelude.{◌≡◌, false, [], ◌∷◌, ◌++◌, map, IfOk, OnOk};
ghost use Rattle.dcx_shape.specs.Shape.{sides_of};
ghost use Rattle.dcx_script_values.specs.Values.{State as MeantState};
ghost use Rattle.dcx_script_values.specs.Kinds.{reading};
ghost use Rattle.dcx_script_values.specs.Nodes.{called};
ghost use Rattle.dcx_script_values.specs.Operands.{as_expression};
ghost use Rattle.dcx_script_values.specs.Meant.{meant};
ghost use Rattle.dcx_script_values.specs.View.{read_as, meant_operand, extent_sides, Gives};
ghost use Rattle.dcx_script_state.specs.Declarations.{is_declaration};
ghost use Rattle.dcx_signature.specs.Arguments.{value_for};
ghost use Rattle.dcx_signature.specs.Fits as fits;
ghost use Rattle.dcx_signature.specs.Table.{order_word, list_word, k_word};
ghost use Rattle.dcx_functions.specs.Calls as meaning;

use crate::given::{axis_for, extent_for, items_for, natural_or, operand_for, reading_of};
use dcx_affine::{CumSum, Diff, Pairing, Reshape};
use dcx_arena::NodeId;
use dcx_atom::Axis;
use dcx_call::{AtomCall, Call, LinearCall};
use dcx_fold::{Norm1, NormInf};
use dcx_script_state::State;
use dcx_script_values::{
    ElabFault, Extent, Operand, Reading, Value, numbers_read, operands_read, read_value,
};
use dcx_shape::{Place, Shape, Sides};
use dcx_signature::{Argument, Bound, is_by_rows, is_infinity, is_one};
use std::alloc::{AllocError, Global};

// ---- one expression

/// The value of a call of one operand.
fn called_on(
    state: &mut State,
    place: Place,
    call: Call,
    operand: Operand,
) -> Result<Value, ElabFault>
    requires { is_declaration call ≡ false }
    ensures { Gives meant result state.new (as_expression (called place call (meant_operand operand ∷ [])) state.old) }
{
    let node = state.called(place, call, &[operand])?;
    Ok(Value::Expression(node))
}

/// A linear call of the expression that is given under this word.
pub(crate) fn linear(
    state: &mut State,
    place: Place,
    call: LinearCall,
    word: &str,
    bound: &Bound,
) -> Result<Value, ElabFault>
    ensures { Gives meant result state.new (meaning.of_one place (Call.Linear call) word.now bound.now state.old) }
{
    let operand = operand_for(state.alloc(), place, word, bound)?;
    called_on(state, place, Call::Linear(call), operand)
}

/// A nonlinear call of x.
pub(crate) fn atom(
    state: &mut State,
    place: Place,
    call: AtomCall,
    bound: &Bound,
) -> Result<Value, ElabFault>
    ensures { Gives meant result state.new (meaning.atom place call bound.now state.old) }
{
    let operand = operand_for(state.alloc(), place, "x", bound)?;
    called_on(state, place, Call::Atom(call), operand)
}

/// Numbers as a node.
pub(crate) fn constant(state: &mut State, place: Place, bound: &Bound) -> Result<Value, ElabFault>
    ensures { Gives meant result state.new (meaning.constant_of place bound.now state.old) }
{
    let reading = reading_of(state.alloc(), "v", bound)?;
    let array = numbers_read(place, reading)?;
    let node = state.pushed(place, &Operand::Constant(array))?;
    Ok(Value::Expression(node))
}

// ---- several expressions

/// The product of two expressions, entry by entry.
pub(crate) fn multiply(state: &mut State, place: Place, bound: &Bound) -> Result<Value, ElabFault>
    ensures { Gives meant result state.new (meaning.of_two place (Call.Pairing Pairing.Times) bound.now state.old) }
{
    let alloc = state.alloc();
    let left = reading_of(alloc, "a", bound)?;
    let right = reading_of(alloc, "b", bound)?;
    let operands = operands_read(alloc, place, vec![in alloc; left, right]?)?;
    let node = state.broadcast_called(place, Call::Pairing(Pairing::Times), &operands)?;
    Ok(Value::Expression(node))
}

/// Adds what a value is where an expression is wanted.
fn push_reading(alloc: Global, readings: &mut Vec<Reading>, value: &Value) -> Result<(), AllocError>
    ensures { OnOk result (map read_as readings.new.items ≡ map read_as readings.old.items ++ reading (meant value.now) ∷ []) }
{
    let reading = read_value(alloc, value)?;
    readings.push(reading)?;
    Ok(())
}

/// What arguments are where expressions are wanted.
fn arguments_read(alloc: Global, arguments: &[Argument]) -> Result<Vec<Reading>, AllocError>
    ensures { IfOk result (λ v. map read_as v.items ≡ map (λ a. reading (meant a.value)) arguments.now) }
{
    let mut readings = Vec::with_capacity(alloc, arguments.len())?;
    for argument in arguments {
        push_reading(alloc, &mut readings, &argument.value)?;
    }
    Ok(readings)
}

/// A call of all arguments.
pub(crate) fn several(
    state: &mut State,
    place: Place,
    call: AtomCall,
    bound: &Bound,
) -> Result<Value, ElabFault>
    ensures { Gives meant result state.new (meaning.of_several place call bound.now state.old) }
{
    let alloc = state.alloc();
    let readings = arguments_read(alloc, bound.arguments())?;
    let operands = operands_read(alloc, place, readings)?;
    let node = state.broadcast_called(place, Call::Atom(call), &operands)?;
    Ok(Value::Expression(node))
}

/// What values are where expressions are wanted.
fn values_read(alloc: Global, values: &[Value]) -> Result<Vec<Reading>, AllocError>
    ensures { IfOk result (λ v. map read_as v.items ≡ map reading (map meant values.now)) }
{
    let mut readings = Vec::with_capacity(alloc, values.len())?;
    for value in values {
        push_reading(alloc, &mut readings, value)?;
    }
    Ok(readings)
}

/// A call of the items of a list; `EmptyResult` where there is none.
pub(crate) fn stacked(
    state: &mut State,
    place: Place,
    call: LinearCall,
    bound: &Bound,
) -> Result<Value, ElabFault>
    ensures { Gives meant result state.new (meaning.stacked place call (meaning.items_for list_word bound.now) state.old) }
{
    let values = items_for("list", bound);
    if values.is_empty() {
        return Err(ElabFault::EmptyResult(place));
    }
    let alloc = state.alloc();
    let readings = values_read(alloc, values)?;
    let operands = operands_read(alloc, place, readings)?;
    let node = state.called(place, Call::Linear(call), &operands)?;
    Ok(Value::Expression(node))
}

// ---- reshaping

/// An operand with other sides; `ShapeClash` where no expression has them, or they have another number of entries.
fn reshaped(
    state: &mut State,
    place: Place,
    operand: Operand,
    extent: Extent,
    by_columns: bool,
) -> Result<Value, ElabFault>
    ensures { Gives meant result state.new (meaning.reshaped place (meant_operand operand) (extent_sides extent) by_columns state.old) }
{
    let Some(to) = extent.shape() else {
        drop(operand);
        return Err(ElabFault::ShapeClash(place));
    };
    let call = Call::Linear(LinearCall::Reshape(Reshape { to, by_columns }));
    called_on(state, place, call, operand)
}

/// The vector of all entries, by columns.
pub(crate) fn vectorized(state: &mut State, place: Place, bound: &Bound) -> Result<Value, ElabFault>
    ensures { Gives meant result state.new (meaning.vectorized place bound.now state.old) }
{
    let operand = operand_for(state.alloc(), place, "x", bound)?;
    let entries = state.operand_shape(&operand).size();
    reshaped(state, place, operand, Extent::Vector(entries as u128), true)
}

/// Whether the order "C" is given.
fn is_in_rows(bound: &Bound) -> bool
    ensures { result ≡ fits.is_by_rows (value_for order_word bound.now) }
{
    match bound.given("order") {
        Some(order) => is_by_rows(order),
        None => false,
    }
}

/// An expression with the sides that are given, by columns or by rows.
pub(crate) fn reshape(state: &mut State, place: Place, bound: &Bound) -> Result<Value, ElabFault>
    ensures { Gives meant result state.new (meaning.reshape place bound.now state.old) }
{
    let operand = operand_for(state.alloc(), place, "x", bound)?;
    let Some(extent) = extent_for(1, bound) else {
        drop(operand);
        return Err(ElabFault::BadArgument(place));
    };
    reshaped(state, place, operand, extent, !is_in_rows(bound))
}

// ---- running sums

/// Whether a shape has two sides.
fn is_matrix(shape: Shape) -> bool
    ensures { result ≡ meaning.is_matrix (sides_of shape) }
{
    match shape.sides() {
        Sides::Matrix(_, _) => true,
        _ => false,
    }
}

/// Whether an axis is given where there is more than one.
fn axis_is_written(axis: Axis, shape: Shape) -> bool
    ensures { result ≡ meaning.axis_is_written axis (sides_of shape) }
{
    match axis {
        Axis::All => !is_matrix(shape),
        _ => true,
    }
}

/// Running sums; `BadArgument` of a matrix where no axis is given.
pub(crate) fn running(state: &mut State, place: Place, bound: &Bound) -> Result<Value, ElabFault>
    ensures { Gives meant result state.new (meaning.running place bound.now state.old) }
{
    let operand = operand_for(state.alloc(), place, "x", bound)?;
    let axis = axis_for(bound);
    if !axis_is_written(axis, state.operand_shape(&operand)) {
        drop(operand);
        return Err(ElabFault::BadArgument(place));
    }
    let call = Call::Linear(LinearCall::CumSum(CumSum { axis }));
    called_on(state, place, call, operand)
}

// ---- differences

/// How often differences may be taken of this shape: k times of a vector of more entries than that.
///
/// `EmptyResult` of a shorter vector, `ShapeClash` of a scalar or a matrix.
fn repeats(place: Place, k: u128, shape: Shape) -> Result<u32, ElabFault>
    ensures longer { (s : MeantState) → Gives (λ _. tt) result s (meaning.longer_than place k (sides_of shape) s) }
    ensures same { IfOk result (λ n. n ≡ k) }
{
    match shape.sides() {
        Sides::Vector(n) => {
            if k < n as u128 {
                Ok(k as u32)
            } else {
                Err(ElabFault::EmptyResult(place))
            }
        }
        _ => Err(ElabFault::ShapeClash(place)),
    }
}

/// The differences of a node, so many times, one around the other.
fn differences(
    state: &mut State,
    place: Place,
    count: u32,
    first: NodeId,
) -> Result<NodeId, ElabFault>
    ensures { Gives (λ i. i.0) result state.new (meaning.differences place count first.0 state.old) }
{
    let mut node = first;
    for _done in 0..count {
        node = state.push(place, Call::Linear(LinearCall::Diff(Diff)), &[node])?;
    }
    Ok(node)
}

/// The differences of x, k times.
fn differenced(state: &mut State, place: Place, k: u128, bound: &Bound) -> Result<NodeId, ElabFault>
    ensures { Gives (λ i. i.0) result state.new (meaning.differenced place k bound.now state.old) }
{
    let operand = operand_for(state.alloc(), place, "x", bound)?;
    let count = repeats(place, k, state.operand_shape(&operand))?;
    let node = state.pushed(place, &operand)?;
    differences(state, place, count, node)
}

/// The differences of x, as often as it is asked for.
pub(crate) fn diff(state: &mut State, place: Place, bound: &Bound) -> Result<Value, ElabFault>
    ensures { Gives meant result state.new (as_expression (meaning.differenced place (meaning.natural_or 1 k_word bound.now) bound.now) state.old) }
{
    let node = differenced(state, place, natural_or(1, "k", bound), bound)?;
    Ok(Value::Expression(node))
}

/// The sum of the magnitudes of the differences.
pub(crate) fn total_variation(
    state: &mut State,
    place: Place,
    bound: &Bound,
) -> Result<Value, ElabFault>
    ensures { Gives meant result state.new (as_expression (meaning.total_variation place bound.now) state.old) }
{
    let node = differenced(state, place, 1, bound)?;
    let call = Call::Atom(AtomCall::Norm1(Norm1 { axis: Axis::All }));
    let sum = state.push(place, call, &[node])?;
    Ok(Value::Expression(sum))
}

// ---- norms

/// The norm of this order; None where it is neither 1 nor "inf".
fn norm_of(order: &Value) -> Option<AtomCall>
    ensures { result ≡ meaning.norm_call (meant order.now) }
{
    let axis = Axis::All;
    if is_one(order) {
        Some(AtomCall::Norm1(Norm1 { axis }))
    } else if is_infinity(order) {
        Some(AtomCall::NormInf(NormInf { axis }))
    } else {
        None
    }
}

/// The norm of the order that is given.
fn norm_call(bound: &Bound) -> Option<AtomCall>
    ensures { result ≡ meaning.norm_call (value_for order_word bound.now) }
{
    match bound.given("order") {
        Some(order) => norm_of(order),
        None => None,
    }
}

/// A norm of a scalar or a vector; `NotOffered` of another order, and of a matrix.
pub(crate) fn norm(state: &mut State, place: Place, bound: &Bound) -> Result<Value, ElabFault>
    ensures { Gives meant result state.new (meaning.norm place bound.now state.old) }
{
    let Some(call) = norm_call(bound) else {
        return Err(ElabFault::NotOffered(place));
    };
    let operand = operand_for(state.alloc(), place, "x", bound)?;
    if is_matrix(state.operand_shape(&operand)) {
        drop(operand);
        return Err(ElabFault::NotOffered(place));
    }
    called_on(state, place, Call::Atom(call), operand)
}
