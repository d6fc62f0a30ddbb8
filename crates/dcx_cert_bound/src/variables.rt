//! What reaches the variables of a problem.
ghost use Rattle.std.specs.Prelude.{◌≡◌, ◌<◌, ◌^◌, ℕ, List, All, IfOk, length};
ghost use Rattle.std.specs.HashMap.{get};
ghost use Rattle.dcx_point.specs.Pairs.{same_name};
ghost use Rattle.dcx_cert_sections.specs.Checks.{Checked};
ghost use Rattle.dcx_cert_bound.specs.Variables.{reaching, coefficients_in, variables_check};

use crate::entries::check_entries;
use dcx_answer::CertFault;
use dcx_cert_collect::Reached;
use dcx_frac::Frac;
use dcx_shape::{Name, copy_name};
use dcx_tree::{Call, Problem, Tree};
use std::alloc::{AllocError, Global};
use std::collections::HashMap;

/// Where the coefficients of each variable stand, by its name.
fn places_of(
    alloc: Global,
    tree: &Tree,
    reached: &[Reached],
) -> Result<HashMap<Name, usize>, AllocError>
    requires { All (λ r. r.node.0 < length tree.now) reached.now }
    ensures { IfOk result (λ m. (name : List ℕ) → coefficients_in reached.now (get same_name m name) ≡ reaching tree.now reached.now name) }
{
    let mut places = HashMap::new(alloc);
    let count = reached.len();
    for k in 0..count {
        let place = count - 1 - k;
        if let Call::Variable(variable) = tree.call(reached[place].node) {
            places.insert(copy_name(alloc, &variable.name)?, place)?;
        }
    }
    Ok(places)
}

/// The coefficients of the variable of this name, and none where none are told.
fn coefficients_of<'a>(
    places: &HashMap<Name, usize>,
    reached: &'a [Reached],
    name: &Name,
) -> &'a [Frac]
    ensures { result.now ≡ coefficients_in reached.now (get same_name places.now name.now) }
{
    match places.get(name) {
        Some(place) => coefficients_at(reached, *place),
        None => &[],
    }
}

/// The coefficients at a place, and none past the last of them.
fn coefficients_at(reached: &[Reached], place: usize) -> &[Frac]
    ensures { result.now ≡ coefficients_in reached.now (Some place) }
{
    match reached.get(place) {
        Some(own) => own.coefficients.as_slice(),
        None => &[],
    }
}

/// Whether what reaches each variable may: the first variable in order of declaration, and its first entry, where it may not is the
/// fault.
pub(crate) fn check_variables(
    alloc: Global,
    problem: &Problem,
    reached: &[Reached],
) -> Result<(), CertFault>
    requires { All (λ r. r.node.0 < length problem.now.tree) reached.now }
    ensures { Checked (variables_check problem.now reached.now) result }
{
    let places = places_of(alloc, &problem.tree, reached)?;
    for (k, variable) in problem.variables.as_slice().iter().enumerate() {
        let coefficients = coefficients_of(&places, reached, &variable.name);
        check_entries(k as u32, variable, coefficients)?;
    }
    Ok(())
}
