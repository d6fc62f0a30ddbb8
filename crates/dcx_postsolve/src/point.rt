//! Points of arrays from the numbers of unknowns.
ghost use Rattle.std.specs.Prelude.{◌≡◌, ◌+◌, ◌<◌, ◌^◌, map, IfOk, OnOk};
ghost use Rattle.std.specs.List.{IsDistinct};
ghost use Rattle.dcx_frac.specs.Frac.{value};
ghost use Rattle.dcx_point.specs.Pairs.{same_name, with_array};
ghost use Rattle.dcx_unknowns.specs.Own.{own_count};
ghost use Rattle.dcx_unknowns.specs.Unknowns.{demanded, sides_in, variable_unknowns, number_at};
ghost use Rattle.dcx_call.specs.Attributes.{IsSquare, AreSquare};
ghost use Rattle.dcx_postsolve.specs.Points.{numbered, IsArrayFrom, PutsArray, IsPointOf};

use dcx_atom::Array;
use dcx_call::Variable;
use dcx_frac::{Frac, Fracs};
use dcx_point::Point;
use dcx_shape::copy_name;
use dcx_tree::Problem;
use dcx_unknowns::{entry_unknowns, first_unknowns};
use std::alloc::{AllocError, Global};

/// The number of an unknown; 0 where there is none.
fn number_of(unknowns: &[Frac], unknown: Option<u32>) -> Frac
    ensures { value result ≡ number_at (numbered unknowns.now) unknown }
{
    match unknown {
        None => Frac::zero(),
        Some(place) => match unknowns.get(place as usize) {
            None => Frac::zero(),
            Some(number) => *number,
        },
    }
}

/// The numbers of the unknowns that stand for the entries of an array.
fn numbers_of(
    alloc: Global,
    sources: &[Option<u32>],
    unknowns: &[Frac],
) -> Result<Fracs, AllocError>
    ensures { IfOk result (λ v. map value v ≡ map (number_at (numbered unknowns.now)) sources.now) }
{
    let mut numbers = Vec::with_capacity(alloc, sources.len())?;
    'sources: for source in sources {
        numbers.push(number_of(unknowns, *source))?;
    }
    Ok(Fracs::from_vec(numbers))
}

/// The array of a variable whose unknowns begin with `first`.
fn array_from(
    alloc: Global,
    variable: &Variable,
    first: u32,
    unknowns: &[Frac],
) -> Result<Array, AllocError>
    requires square { IsSquare variable.now }
    requires fits { first + own_count (demanded variable.now) (sides_in variable.now) < 2 ^ 32 }
    ensures { IfOk result (λ x. IsArrayFrom unknowns.now first variable.now x) }
{
    let sources = entry_unknowns(alloc, first, variable)?;
    let entries = numbers_of(alloc, sources.as_slice(), unknowns)?;
    Ok(Array {
        shape: variable.shape,
        entries,
    })
}

/// Puts the array of a variable whose unknowns begin with `first`.
fn put_array(
    alloc: Global,
    point: &mut Point,
    variable: &Variable,
    first: u32,
    unknowns: &[Frac],
) -> Result<(), AllocError>
    requires square { IsSquare variable.now }
    requires fits { first + own_count (demanded variable.now) (sides_in variable.now) < 2 ^ 32 }
    ensures { OnOk result (PutsArray unknowns.now first variable.now point.old point.new) }
{
    let name = copy_name(alloc, &variable.name)?;
    let array = array_from(alloc, variable, first, unknowns)?;
    point.put(name, array)
}

/// The point of unknowns for variables whose names are distinct, and whose unknowns are few.
fn point_of_variables(
    alloc: Global,
    variables: &[Variable],
    unknowns: &[Frac],
) -> Result<Point, AllocError>
    requires square { AreSquare variables.now }
    requires distinct { IsDistinct same_name (map (λ v. v.name) variables.now) }
    requires few { variable_unknowns variables.now < 2 ^ 32 }
    ensures { IfOk result (λ p. IsPointOf variables.now unknowns.now p) }
{
    let firsts = first_unknowns(alloc, variables)?;
    let mut point = Point::empty(alloc);
    'variables: for (place, variable) in variables.iter().enumerate() {
        put_array(alloc, &mut point, variable, firsts[place], unknowns)?;
    }
    Ok(point)
}

/// The point of unknowns: for each variable of the problem, in order of declaration, an array of its shape, each entry the number
/// of the unknown that stands for it, and 0 where there is none. A number that `unknowns` doesn't list counts as 0. `AllocError`
/// where there is no memory.
pub fn point_of_unknowns(
    alloc: Global,
    problem: &Problem,
    unknowns: &[Frac],
) -> Result<Point, AllocError>
    ensures { IfOk result (λ p. IsPointOf problem.now.variables unknowns.now p) }
{
    point_of_variables(alloc, problem.variables.as_slice(), unknowns)
}
