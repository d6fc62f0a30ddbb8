//! The operands of a call or an operator, the faults of what is given where an expression is wanted, and a plain array as a value.
ghost use Rattle.std.specs.Prelude.{◌≡◌, Result, map};
ghost use Rattle.std.specs.List.{list_any};
ghost use Rattle.dcx_array.specs.Answers.{Gives as Answers};
ghost use Rattle.dcx_script_values.specs.Values.{State, or_array_fault};
ghost use Rattle.dcx_script_values.specs.Kinds.{is_nested, is_empty};
ghost use Rattle.dcx_script_values.specs.Operands.{operand_read, each_read, operands_read, numbers_read, as_plain};
ghost use Rattle.dcx_script_values.specs.Meant.{meant};
ghost use Rattle.dcx_script_values.specs.View.{read_as, meant_operand, Gives};

use crate::fault::{ElabFault, array_fault};
use crate::reading::{Operand, Reading};
use crate::value::Value;
use dcx_array::ArrayFault;
use dcx_atom::Array;
use dcx_shape::Place;
use std::alloc::Global;
use std::rc::Rc;

/// The operand that is read. `BadArgument` of a wrong kind, `NotOffered` of a nested list, `EmptyResult` of an empty one.
pub fn operand_read(place: Place, reading: Reading) -> Result<Operand, ElabFault>
    ensures { (s : State) → Gives meant_operand result s (operand_read place (read_as reading) s) }
{
    match reading {
        Reading::Operand(operand) => Ok(operand),
        Reading::Nested => Err(ElabFault::NotOffered(place)),
        Reading::Empty => Err(ElabFault::EmptyResult(place)),
        Reading::Unfit => Err(ElabFault::BadArgument(place)),
    }
}

/// Whether a reading is a nested list.
fn is_nested(reading: &Reading) -> bool
    ensures { result ≡ is_nested (read_as reading.now) }
{
    matches!(reading, Reading::Nested)
}

/// Whether a reading is an empty list.
fn is_empty(reading: &Reading) -> bool
    ensures { result ≡ is_empty (read_as reading.now) }
{
    matches!(reading, Reading::Empty)
}

/// Whether a nested list is among the readings.
fn has_nested(readings: &[Reading]) -> bool
    ensures { result ≡ list_any is_nested (map read_as readings.now) }
{
    for reading in readings {
        if is_nested(reading) {
            return true;
        }
    }
    false
}

/// Whether an empty list is among the readings.
fn has_empty(readings: &[Reading]) -> bool
    ensures { result ≡ list_any is_empty (map read_as readings.now) }
{
    for reading in readings {
        if is_empty(reading) {
            return true;
        }
    }
    false
}

/// The operands that are read, one after the other.
fn each_read(alloc: Global, place: Place, readings: Vec<Reading>) -> Result<Vec<Operand>, ElabFault>
    ensures { (s : State) → Gives (λ v. map meant_operand v.items) result s (each_read place (map read_as readings.items) s) }
{
    let mut operands = Vec::with_capacity(alloc, readings.len())?;
    for reading in readings {
        operands.push(operand_read(place, reading)?)?;
    }
    Ok(operands)
}

/// The operands of a call. A nested list comes before an empty one, wherever they stand.
pub fn operands_read(
    alloc: Global,
    place: Place,
    readings: Vec<Reading>,
) -> Result<Vec<Operand>, ElabFault>
    ensures { (s : State) → Gives (λ v. map meant_operand v.items) result s (operands_read place (map read_as readings.items) s) }
{
    if has_nested(&readings) {
        return Err(ElabFault::NotOffered(place));
    }
    if has_empty(&readings) {
        return Err(ElabFault::EmptyResult(place));
    }
    each_read(alloc, place, readings)
}

/// A value of a parameter: numbers without a node. `EmptyResult` where there are none, `BadArgument` of all else.
pub fn numbers_read(place: Place, reading: Reading) -> Result<Rc<Array>, ElabFault>
    ensures { (s : State) → Gives (λ a. a.value) result s (numbers_read place (read_as reading) s) }
{
    match reading {
        Reading::Operand(Operand::Constant(array)) => Ok(array),
        Reading::Empty => Err(ElabFault::EmptyResult(place)),
        _ => Err(ElabFault::BadArgument(place)),
    }
}

/// A plain array as a value, or why there is none, at the place of what makes it.
pub fn as_plain(
    alloc: Global,
    place: Place,
    array: Result<Array, ArrayFault>,
) -> Result<Value, ElabFault>
    ensures { (asked : Result Array ArrayFault) (s : State) → Answers array asked → Gives meant result s (as_plain (or_array_fault place asked) s) }
{
    match array {
        Ok(array) => Ok(Value::Plain(Rc::new(alloc, array)?)),
        Err(fault) => Err(array_fault(place, fault)),
    }
}
