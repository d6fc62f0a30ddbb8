//! What a name that is called gives, with or without a dot before it.
ghost use Rattle.std.specs.Prelude.{◌≡◌, map, option_copied};
ghost use Rattle.dcx_script_values.specs.Meant.{meant};
ghost use Rattle.dcx_script_values.specs.View.{Gives};
ghost use Rattle.dcx_signature.specs.View.{given_seen};
ghost use Rattle.dcx_elab.specs.Expressions as meaning;
ghost use Rattle.dcx_elab.specs.View.{trailers_from};

use dcx_functions::function_called;
use dcx_script_state::State;
use dcx_script_values::{ElabFault, Value};
use dcx_shape::{Name, Place};
use dcx_signature::{Function, Given, arguments, function_named, is_word, solve_row};
use dcx_syntax::{Module, Named, Trailer};

/// Whether a name that is called without a dot is `range`. A name that is bound is no call, and another isn't known.
pub fn is_range(state: &State, name: &Named) -> Result<bool, ElabFault>
    ensures { Gives (λ b. b) result state.now (meaning.is_range name.now state.now) }
{
    if state.is_bound(&name.name) {
        Ok(false)
    } else if is_word(&name.name, "range") {
        Ok(true)
    } else {
        Err(ElabFault::UnknownName(name.place))
    }
}

/// A call of a name without a dot.
pub fn name_called(
    state: &mut State,
    name: &Named,
    is_range: bool,
    given: Vec<Given>,
) -> Result<Value, ElabFault>
    ensures { Gives meant result state.new (meaning.name_called name.now is_range (map given_seen given.entry.items) state.old) }
{
    if is_range {
        function_called(state, None, name.place, Function::Range, given)
    } else {
        Err(ElabFault::UnknownCall(name.place))
    }
}

/// Whether `print` alone reads an attribute.
fn is_answer(name: &Name) -> bool
    ensures { result ≡ meaning.is_answer name.now }
{
    is_word(name, "value") || is_word(name, "status") || is_word(name, "dual_value")
}

/// Whether a call of this name is a solve.
pub fn is_solve(value: &Value, name: &Name) -> bool
    ensures { result ≡ meaning.is_solve (meant value.now) name.now }
{
    matches!(value, Value::Problem) && is_word(name, "solve")
}

fn solve_called(state: &mut State, place: Place, given: Vec<Given>) -> Result<Value, ElabFault>
    ensures { Gives meant result state.new (meaning.solve_called place (map given_seen given.entry.items) state.old) }
{
    arguments(state.alloc(), state.tree(), place, solve_row(), given)?;
    state.solve(place)
}

/// A call of a name of a module.
fn module_called(
    state: &mut State,
    target: Option<&Name>,
    place: Place,
    library: Module,
    name: &Named,
    given: Vec<Given>,
) -> Result<Value, ElabFault>
    ensures { Gives meant result state.new (meaning.module_called (option_copied target.entry) place library name.now (map given_seen given.entry.items) state.old) }
{
    match function_named(library, &name.name) {
        Some(function) => function_called(state, target, place, function, given),
        None => Err(ElabFault::UnknownCall(place)),
    }
}

/// `value.name(..)` with these arguments, which is called from the place on: a name of a module, a solve, or none.
pub fn method_called(
    state: &mut State,
    target: Option<&Name>,
    place: Place,
    value: &Value,
    name: &Named,
    given: Vec<Given>,
) -> Result<Value, ElabFault>
    ensures { Gives meant result state.new (meaning.method_called (option_copied target.entry) place (meant value.now) name.now (map given_seen given.entry.items) state.old) }
{
    if let Value::Library(library) = value {
        return module_called(state, target, place, *library, name, given);
    }
    if is_solve(value, &name.name) {
        solve_called(state, place, given)
    } else if is_answer(&name.name) {
        Err(ElabFault::NotOffered(name.place))
    } else {
        Err(ElabFault::UnknownCall(place))
    }
}

/// The target of a call, which is kept where no trailer stands at the index.
pub fn target_before<'a>(target: Option<&'a Name>, all: &[Trailer], at: usize) -> Option<&'a Name>
    ensures { option_copied result ≡ meaning.target_before (option_copied target.entry) (trailers_from all.now at) }
{
    if at < all.len() { None } else { target }
}
