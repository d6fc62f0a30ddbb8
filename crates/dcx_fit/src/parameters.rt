//! Whether a setting fits the parameters of a problem.
ghost use Rattle.std.specs.Prelude.{◌≡◌, ◌↔◌, IsOk, IfErr, MatchOption, MatchResult};
ghost use Rattle.std.specs.List.{All, list_any};
ghost use Rattle.dcx_shape.specs.Shape.{sides_of};
ghost use Rattle.dcx_atom.specs.Arrays.{number_at};
ghost use Rattle.dcx_point.specs.Pairs.{names_of, same_name};
ghost use Rattle.dcx_call.specs.Attributes.{IsWithin};
ghost use Rattle.dcx_fit.specs.Fit.{IsNamed, IsMet, FitsParameters, IsFirstLeft, IsUnknown, IsUnmet, IsFaultOf, IsFirstMisfit};
ghost use Rattle.dcx_fit.specs.Faults.{stop_of};

use crate::fault::{Fault, stop_of};
use dcx_answer::Stop;
use dcx_atom::Array;
use dcx_domain::first_left;
use dcx_frac::Frac;
use dcx_point::Setting;
use dcx_shape::Name;
use dcx_tree::{Parameter, Problem};
use std::alloc::Global;

/// Whether a setting fits a problem.
///
/// `UnknownParam` names the first name of the setting that no parameter of the problem has. Otherwise the first parameter in
/// order of declaration that isn't met stops the setting: `MissingParam` where it has no array, `ParamShape` where the array
/// has another shape, `ParamSign` at the first entry that isn't as the attribute demands. `Memory` comes only where another
/// stop would, and its name couldn't be copied.
pub fn fit(alloc: Global, problem: &Problem, setting: &Setting) -> Result<(), Stop>
    ensures fits { IsOk result ↔ FitsParameters problem.now.parameters setting.now }
    ensures stops { IfErr result (IsFirstMisfit problem.now.parameters setting.now) }
{
    let parameters = problem.parameters.as_slice();
    are_known(alloc, parameters, setting)?;
    are_met(alloc, parameters, setting)
}

/// Whether each name of a setting is that of a parameter.
fn are_known(alloc: Global, parameters: &[Parameter], setting: &Setting) -> Result<(), Stop>
    ensures { MatchResult result (λ _. All (IsNamed parameters.now) (names_of setting.now)) (IsUnknown parameters.now setting.now) }
{
    for k in 0..setting.len() {
        let Some(name) = setting.name_at(k) else {
            return Ok(());
        };
        if !is_known(parameters, k, name) {
            return Err(stop_of(alloc, name, Fault::Unknown));
        }
    }
    Ok(())
}

/// Whether a parameter has this name. That at this position is asked first, since names mostly stand in order of declaration.
fn is_known(parameters: &[Parameter], k: usize, name: &Name) -> bool
    ensures { result ≡ list_any (λ q. same_name name.now q.name) parameters.now }
{
    if k < parameters.len() && *name == parameters[k].name {
        return true;
    }
    parameters.iter().any(|q| *name == q.name)
}

/// Whether a setting meets each parameter.
fn are_met(alloc: Global, parameters: &[Parameter], setting: &Setting) -> Result<(), Stop>
    ensures { MatchResult result (λ _. All (IsMet setting.now) parameters.now) (IsUnmet parameters.now setting.now) }
{
    for parameter in parameters {
        if let Some(fault) = fault_of(parameter, setting) {
            return Err(stop_of(alloc, &parameter.name, fault));
        }
    }
    Ok(())
}

/// What is wrong with the array that a setting gives a parameter.
fn fault_of(parameter: &Parameter, setting: &Setting) -> Option<Fault>
    ensures { MatchOption result (IsMet setting.now parameter.now) (λ fault. IsFaultOf setting.now parameter.now (stop_of parameter.now.name fault)) }
{
    let Some(array) = setting.get(&parameter.name) else {
        return Some(Fault::Missing);
    };
    if array.shape.sides() != parameter.shape.sides() {
        return Some(Fault::Shape {
            declared: parameter.shape,
            given: array.shape,
        });
    }
    let (entry, value) = left_of(parameter, array)?;
    Some(Fault::Sign { entry, value })
}

/// The first entry, and its number, of an array of a parameter's shape that isn't as the parameter's attribute demands.
fn left_of(parameter: &Parameter, array: &Array) -> Option<(u32, Frac)>
    requires { sides_of array.now.shape ≡ sides_of parameter.now.shape }
    ensures { MatchOption result (IsWithin parameter.now.attribute (sides_of parameter.now.shape) (number_at array.now.entries)) (λ left. IsFirstLeft parameter.now array.now left.0 left.1) }
{
    let numbers = array.entries.as_slice();
    let entry = first_left(parameter.attribute, parameter.shape, numbers)?;
    Some((entry, numbers[entry as usize]))
}
