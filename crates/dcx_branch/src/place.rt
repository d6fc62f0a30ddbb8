//! Entries that may be bounded.
ghost use Rattle.std.specs.Prelude.{◌≡◌, ◌+◌, ◌<◌, ◌^◌, ◌++◌, length, IfOk, OnOk};
ghost use Rattle.dcx_call.specs.Attributes.{IsSquare, AreSquare};
ghost use Rattle.dcx_unknowns.specs.Own.{own_count};
ghost use Rattle.dcx_unknowns.specs.Unknowns.{demanded, sides_in, variable_unknowns};
ghost use Rattle.dcx_branch.specs.Places.{places_of as places_by, place_if, variable_places, places};

use dcx_call::{Variable, Whole};
use dcx_unknowns::{entry_unknowns, first_unknowns};
use std::alloc::{AllocError, Global};

/// An entry of a marked variable that has an unknown.
#[derive(Clone, Copy, Debug, PartialEq, Eq)]
pub struct Place {
    /// The variable, by position in order of declaration.
    pub variable: u32,
    /// The entry, in row-major order.
    pub entry: u32,
    /// The unknown that stands for it.
    pub unknown: u32,
    /// The mark of its variable.
    pub whole: Whole,
}

/// Adds an entry of a variable, where it has an unknown.
fn push_entry(
    places: &mut Vec<Place>,
    variable: u32,
    whole: Whole,
    entry: u32,
    unknown: Option<u32>,
) -> Result<(), AllocError>
    ensures { OnOk result (places.new.items ≡ places.old.items ++ place_if variable whole entry unknown) }
{
    match unknown {
        None => Ok(()),
        Some(unknown) => {
            places.push(Place {
                variable,
                entry,
                unknown,
                whole,
            })?;
            Ok(())
        }
    }
}

/// Adds the entries of a variable that have an unknown, in order.
fn push_entries(
    places: &mut Vec<Place>,
    variable: u32,
    whole: Whole,
    unknowns: &[Option<u32>],
) -> Result<(), AllocError>
    requires { length unknowns.now < 2 ^ 32 }
    ensures { OnOk result (places.new.items ≡ places.old.items ++ places_by variable whole 0 unknowns.now) }
{
    'entries: for (entry, unknown) in unknowns.iter().enumerate() {
        push_entry(places, variable, whole, entry as u32, *unknown)?;
    }
    Ok(())
}

/// Adds the entries of variable `number` that may be bounded; its unknowns begin with `first`.
fn push_variable(
    alloc: Global,
    places: &mut Vec<Place>,
    number: u32,
    variable: &Variable,
    first: u32,
) -> Result<(), AllocError>
    requires square { IsSquare variable.now }
    requires fits { first + own_count (demanded variable.now) (sides_in variable.now) < 2 ^ 32 }
    ensures { OnOk result (places.new.items ≡ places.old.items ++ variable_places number first variable.now) }
{
    match variable.whole {
        Whole::Not => Ok(()),
        Whole::Integer | Whole::Boolean => {
            let unknowns = entry_unknowns(alloc, first, variable)?;
            push_entries(places, number, variable.whole, &unknowns)
        }
    }
}

/// The entries that may be bounded: those of marked variables that have an unknown, in order of declaration and row-major order.
pub(crate) fn places_of(alloc: Global, variables: &[Variable]) -> Result<Vec<Place>, AllocError>
    requires square { AreSquare variables.now }
    requires few { variable_unknowns variables.now < 2 ^ 32 }
    requires numbered { length variables.now < 2 ^ 32 }
    ensures { IfOk result (λ v. v.items ≡ places variables.now) }
{
    let firsts = first_unknowns(alloc, variables)?;
    let mut places = Vec::new(alloc);
    'variables: for (number, variable) in variables.iter().enumerate() {
        push_variable(alloc, &mut places, number as u32, variable, firsts[number])?;
    }
    Ok(places)
}
