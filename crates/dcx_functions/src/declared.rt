//! The calls that declare variables and parameters, and that make an objective and the problem.
ghost use Rattle.std.specs.Prelude.{◌≡◌, option_map, IfOk};
ghost use Rattle.std.specs.Option.{option_copied};
ghost use Rattle.dcx_script_values.specs.Kinds.{reading};
ghost use Rattle.dcx_script_values.specs.Meant.{meant};
ghost use Rattle.dcx_script_values.specs.View.{read_as, extent_sides, Gives};
ghost use Rattle.dcx_signature.specs.Arguments.{given_for};
ghost use Rattle.dcx_signature.specs.Table.{value_word};
ghost use Rattle.dcx_functions.specs.Calls as meaning;

use crate::given::{extent_for, is_set, items_for, operand_for};
use dcx_script_state::{Flags, State};
use dcx_script_values::{ElabFault, Extent, Objective, Reading, Value, read_value};
use dcx_shape::{Name, Place};
use dcx_signature::Bound;
use dcx_tree::Sense;
use std::alloc::{AllocError, Global};

// ---- declarations

/// The sides that are declared; none where no shape is given.
fn declared_extent(bound: &Bound) -> Extent
    ensures { extent_sides result ≡ meaning.declared_sides bound.now }
{
    match extent_for(1, bound) {
        Some(extent) => extent,
        None => Extent::Scalar,
    }
}

/// The attributes that are asked for.
fn flags(bound: &Bound) -> Flags
    ensures { result ≡ meaning.flags_of bound.now }
{
    Flags {
        nonneg: is_set("nonneg", bound),
        nonpos: is_set("nonpos", bound),
        symmetric: is_set("symmetric", bound),
        diag: is_set("diag", bound),
        boolean: is_set("boolean", bound),
        integer: is_set("integer", bound),
    }
}

/// A variable under the name to which it is assigned.
pub(crate) fn variable(
    state: &mut State,
    place: Place,
    target: Option<&Name>,
    bound: &Bound,
) -> Result<Value, ElabFault>
    ensures { Gives meant result state.new (meaning.variable_of place (option_copied target.entry) bound.now state.old) }
{
    match target {
        Some(name) => { state.declare_variable(place, name, declared_extent(bound), flags(bound)) }
        None => Err(ElabFault::NotOffered(place)),
    }
}

/// Whether an attribute is named that a parameter can't have.
fn names_unoffered(bound: &Bound) -> bool
    ensures { result ≡ meaning.names_unoffered bound.now }
{
    bound.has("symmetric") || bound.has("diag") || bound.has("boolean") || bound.has("integer")
}

/// The first value of a parameter, where one is given.
fn first_value(alloc: Global, bound: &Bound) -> Result<Option<Reading>, AllocError>
    ensures { IfOk result (λ o. option_map read_as o ≡ option_map reading (given_for value_word bound.now)) }
{
    match bound.given("value") {
        Some(value) => Ok(Some(read_value(alloc, value)?)),
        None => Ok(None),
    }
}

/// A parameter under the name to which it is assigned.
pub(crate) fn parameter(
    state: &mut State,
    place: Place,
    target: Option<&Name>,
    bound: &Bound,
) -> Result<Value, ElabFault>
    ensures { Gives meant result state.new (meaning.parameter_of place (option_copied target.entry) bound.now state.old) }
{
    let Some(name) = target else {
        return Err(ElabFault::NotOffered(place));
    };
    let value = first_value(state.alloc(), bound)?;
    state.declare_parameter(
        place,
        name,
        declared_extent(bound),
        flags(bound),
        names_unoffered(bound),
        value,
    )
}

// ---- the problem

/// The objective of an expression; `ShapeClash` where it hasn't one entry.
pub(crate) fn objective(
    state: &mut State,
    place: Place,
    sense: Sense,
    bound: &Bound,
) -> Result<Value, ElabFault>
    ensures { Gives meant result state.new (meaning.objective_of place sense bound.now state.old) }
{
    let operand = operand_for(state.alloc(), place, "e", bound)?;
    if state.operand_shape(&operand).size() != 1 {
        drop(operand);
        return Err(ElabFault::ShapeClash(place));
    }
    let node = state.pushed(place, &operand)?;
    Ok(Value::Objective(Objective { sense, node, place }))
}

/// The problem of an objective and a list of constraints.
pub(crate) fn problem(state: &mut State, place: Place, bound: &Bound) -> Result<Value, ElabFault>
    ensures { Gives meant result state.new (meaning.problem_of place bound.now state.old) }
{
    match bound.given("objective") {
        Some(Value::Objective(objective)) => {
            state.make_problem(place, *objective, items_for("constraints", bound))
        }
        _ => Err(ElabFault::BadArgument(place)),
    }
}
