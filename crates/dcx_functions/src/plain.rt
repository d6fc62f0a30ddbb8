//! The calls that make plain arrays and ranges.
ghost use Rattle.dcx_script_values.specs.Values.{State};
ghost use Rattle.dcx_script_values.specs.Meant.{meant};
ghost use Rattle.dcx_script_values.specs.View.{Gives};
ghost use Rattle.dcx_functions.specs.Calls as meaning;

use crate::given::{extent_for, items_for, natural_or, whole_or};
use dcx_array::{constant, identity};
use dcx_frac::Frac;
use dcx_script_values::{ElabFault, Value, as_plain, rows_array, told_side};
use dcx_shape::Place;
use dcx_signature::{Bound, range_from};
use std::alloc::Global;
use std::rc::Rc;

// ---- plain arrays

/// The array of the sides that are given, with the same number everywhere.
///
/// `EmptyResult` where a side is 0, `TooMany` where there would be more than 20,000 entries.
pub(crate) fn filled(
    alloc: Global,
    place: Place,
    number: Frac,
    bound: &Bound,
) -> Result<Value, ElabFault>
    ensures { (s : State) → Gives meant result s (meaning.filled_with place number bound.now s) }
{
    let Some(extent) = extent_for(0, bound) else {
        return Err(ElabFault::BadArgument(place));
    };
    as_plain(alloc, place, constant(alloc, extent.told(), number))
}

/// The square matrix with 1 on its diagonal and 0 elsewhere; faults as of `filled`.
pub(crate) fn eye(alloc: Global, place: Place, bound: &Bound) -> Result<Value, ElabFault>
    ensures { (s : State) → Gives meant result s (meaning.identity_of place bound.now s) }
{
    let size = told_side(natural_or(0, "n", bound));
    as_plain(alloc, place, identity(alloc, size))
}

/// The array of the numbers or rows that are given; `EmptyResult` where there is no number.
pub(crate) fn array(alloc: Global, place: Place, bound: &Bound) -> Result<Value, ElabFault>
    ensures { (s : State) → Gives meant result s (meaning.array_of place bound.now s) }
{
    match rows_array(alloc, items_for("v", bound))? {
        Some(array) => Ok(Value::Plain(Rc::new(alloc, array)?)),
        None => Err(ElabFault::EmptyResult(place)),
    }
}

// ---- ranges

/// `range(stop)`, or `range(first, stop)`, with a step or without. `TooMany` where there would be more than 20,000 numbers.
pub(crate) fn range(alloc: Global, place: Place, bound: &Bound) -> Result<Value, ElabFault>
    ensures { (s : State) → Gives meant result s (meaning.range_of place bound.now s) }
{
    let first = whole_or(0, "first", bound);
    if bound.has("second") {
        let stop = whole_or(0, "second", bound);
        range_from(alloc, place, first, stop, whole_or(1, "step", bound))
    } else {
        range_from(alloc, place, 0, first, 1)
    }
}
