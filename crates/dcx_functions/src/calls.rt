//! A call of a function: one line for each.
ghost use Rattle.std.specs.Prelude.{◌≡◌, map};
ghost use Rattle.std.specs.Option.{option_copied};
ghost use Rattle.dcx_script_values.specs.Meant.{meant};
ghost use Rattle.dcx_script_values.specs.View.{Gives};
ghost use Rattle.dcx_signature.specs.View.{given_seen};
ghost use Rattle.dcx_functions.specs.Calls as meaning;

use crate::declared::{objective, parameter, problem, variable};
use crate::expressions::{
    atom, constant, diff, linear, multiply, norm, reshape, running, several, stacked,
    total_variation, vectorized,
};
use crate::given::{axis_for, count_of, share_for};
use crate::plain::{array, eye, filled, range};
use dcx_affine::{Diag, HStack, Mean, Sum, Trace, VStack};
use dcx_call::{AtomCall, LinearCall};
use dcx_elem::{Abs, Maximum, Minimum, Neg, Pos};
use dcx_fold::{CumMax, MaxOf, MinOf, Norm1, NormInf, SumLargest, SumSmallest};
use dcx_frac::Frac;
use dcx_script_state::State;
use dcx_script_values::{ElabFault, Value};
use dcx_shape::{Name, Place};
use dcx_signature::{Bound, Function, Given, arguments, row_of};
use dcx_tree::Sense;

/// What a call gives, under the name to which it is assigned, where it is.
fn perform(
    state: &mut State,
    target: Option<&Name>,
    function: Function,
    place: Place,
    bound: &Bound,
) -> Result<Value, ElabFault>
    ensures { Gives meant result state.new (meaning.perform (option_copied target.entry) function place bound.now state.old) }
{
    let alloc = state.alloc();
    let axis = axis_for(bound);
    let k = share_for(bound);
    let count = count_of(bound);
    match function {
        Function::Range => range(alloc, place, bound),
        Function::Variable => variable(state, place, target, bound),
        Function::Parameter => parameter(state, place, target, bound),
        Function::Constant => constant(state, place, bound),
        Function::Minimize => objective(state, place, Sense::Minimize, bound),
        Function::Maximize => objective(state, place, Sense::Maximize, bound),
        Function::Problem => problem(state, place, bound),
        Function::Array => array(alloc, place, bound),
        Function::Ones => filled(alloc, place, Frac::one(), bound),
        Function::Zeros => filled(alloc, place, Frac::zero(), bound),
        Function::Eye => eye(alloc, place, bound),
        Function::Multiply => multiply(state, place, bound),
        Function::Vectorize => vectorized(state, place, bound),
        Function::Reshape => reshape(state, place, bound),
        Function::Sum => linear(state, place, LinearCall::Sum(Sum { axis }), "x", bound),
        Function::Mean => linear(state, place, LinearCall::Mean(Mean { axis }), "x", bound),
        Function::CumSum => running(state, place, bound),
        Function::Diff => diff(state, place, bound),
        Function::Trace => linear(state, place, LinearCall::Trace(Trace), "X", bound),
        Function::Diag => linear(state, place, LinearCall::Diag(Diag), "x", bound),
        Function::HStack => stacked(state, place, LinearCall::HStack(HStack), bound),
        Function::VStack => stacked(state, place, LinearCall::VStack(VStack), bound),
        Function::Abs => atom(state, place, AtomCall::Abs(Abs), bound),
        Function::Pos => atom(state, place, AtomCall::Pos(Pos), bound),
        Function::Neg => atom(state, place, AtomCall::Neg(Neg), bound),
        Function::Maximum => several(state, place, AtomCall::Maximum(Maximum { count }), bound),
        Function::Minimum => several(state, place, AtomCall::Minimum(Minimum { count }), bound),
        Function::MaxOf => atom(state, place, AtomCall::MaxOf(MaxOf { axis }), bound),
        Function::MinOf => atom(state, place, AtomCall::MinOf(MinOf { axis }), bound),
        Function::Norm1 => atom(state, place, AtomCall::Norm1(Norm1 { axis }), bound),
        Function::NormInf => atom(state, place, AtomCall::NormInf(NormInf { axis }), bound),
        Function::SumLargest => atom(state, place, AtomCall::SumLargest(SumLargest { k }), bound),
        Function::SumSmallest => {
            atom(
                state,
                place,
                AtomCall::SumSmallest(SumSmallest { k }),
                bound,
            )
        }
        Function::CumMax => atom(state, place, AtomCall::CumMax(CumMax), bound),
        Function::Norm => norm(state, place, bound),
        Function::TotalVariation => total_variation(state, place, bound),
    }
}

/// Whether a call stands only where its value is assigned.
fn must_be_assigned(function: Function) -> bool
    ensures { result ≡ meaning.must_be_assigned function }
{
    matches!(
        function,
        Function::Variable | Function::Parameter | Function::Problem
    )
}

/// Whether a call may stand where it is: one that must be assigned has a target.
fn is_placed(target: Option<&Name>, function: Function) -> bool
    ensures { result ≡ meaning.is_placed (option_copied target.entry) function }
{
    target.is_some() || !must_be_assigned(function)
}

/// A call of a function, whose called expression begins at the place; the target is the name to which the call is
/// assigned, where it is the whole right side.
///
/// `NotOffered` of a declaration or a problem that isn't assigned, which comes before every fault of an argument; else the
/// first fault of an argument; else that of the call itself. A fault may come after nodes of the call were made.
pub fn function_called(
    state: &mut State,
    target: Option<&Name>,
    place: Place,
    function: Function,
    given: Vec<Given>,
) -> Result<Value, ElabFault>
    ensures { Gives meant result state.new (meaning.function_called (option_copied target.entry) place function (map given_seen given.entry.items) state.old) }
{
    if !is_placed(target, function) {
        drop(given);
        return Err(ElabFault::NotOffered(place));
    }
    let bound = arguments(state.alloc(), state.tree(), place, row_of(function), given)?;
    let performed = perform(state, target, function, place, &bound);
    drop(bound);
    performed
}
