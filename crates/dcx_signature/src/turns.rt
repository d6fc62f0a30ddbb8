//! What a `for` and a comprehension go through: the numbers of a range, the items of a list, the numbers of a vector.
ghost use Rattle.std.specs.Prelude.{◌≡◌, ◌<◌, ◌+ℤ◌, ◌*ℤ◌, pos, length, slice_get, Some, IfOk};
ghost use Rattle.dcx_math.specs.Rational.{whole};
ghost use Rattle.dcx_frac.specs.Fits.{Fits};
ghost use Rattle.dcx_atom.specs.Formed.{frac_at};
ghost use Rattle.dcx_array.specs.Arrays.{number as number_array};
ghost use Rattle.dcx_script_values.specs.Values.{State as MeantState, plain};
ghost use Rattle.dcx_script_values.specs.Meant.{meant};
ghost use Rattle.dcx_script_values.specs.View.{Gives};
ghost use Rattle.dcx_signature.specs.Turns.{steps_between, range_count, range_from, whole_value, items_through};
ghost use Rattle.dcx_signature.specs.View.{through_seen};

use dcx_arena::Count;
use dcx_array::number as number_array;
use dcx_atom::Array;
use dcx_frac::Frac;
use dcx_script_values::{ElabFault, Items, MOST_ITEMS, Progression, Value, too_many};
use dcx_shape::{Place, Sides};
use std::alloc::{AllocError, Global};
use std::rc::Rc;

// ---- ranges

/// How many steps of a size are begun from the low number before the high one.
fn steps_between(low: i128, high: i128, size: u128) -> u128
    requires { 0 < size }
    ensures { result ≡ steps_between low high size }
{
    if low < high {
        high.abs_diff(low).div_ceil(size)
    } else {
        0
    }
}

/// How many of first, first + step, .. come before the stop; by a step of 0 none is taken.
fn range_count(first: i128, stop: i128, step: i128) -> u128
    ensures { result ≡ range_count first stop step }
{
    if step > 0 {
        steps_between(first, stop, step.unsigned_abs())
    } else if step < 0 {
        steps_between(stop, first, step.unsigned_abs())
    } else {
        0
    }
}

/// The range first, first + step, .. up to the stop, which isn't in it. `TooMany` with the count where it is too long.
pub fn range_from(
    alloc: Global,
    place: Place,
    first: i128,
    stop: i128,
    step: i128,
) -> Result<Value, ElabFault>
    requires first { Fits first }
    requires stop { Fits stop }
    ensures { (s : MeantState) → Gives meant result s (range_from place first stop step s) }
{
    let count = range_count(first, stop, step);
    if count > MOST_ITEMS as u128 {
        return Err(too_many(place, Count::Items, count));
    }
    let range = Progression {
        first,
        step,
        count: count as u32,
    };
    Ok(Value::Range(Rc::new(alloc, range)?))
}

/// Number `k` of a range. The way there from the first number may pass 128 bits with a sign, and the number doesn't.
fn number_of(range: &Progression, k: usize) -> i128
    requires { k < range.now.count }
    ensures value { result ≡ range.now.first +ℤ pos k *ℤ range.now.step }
    ensures fits { Fits result }
{
    let way = k as u128 * range.step.unsigned_abs();
    if range.step < 0 {
        range.first.saturating_sub_unsigned(way)
    } else {
        range.first.saturating_add_unsigned(way)
    }
}

// ---- what there is to go through

/// A plain number as a value.
pub fn number_value(alloc: Global, number: Frac) -> Result<Value, AllocError>
    ensures { IfOk result (λ v. meant v ≡ plain (number_array number)) }
{
    let array = number_array(alloc, number)?;
    Ok(Value::Plain(Rc::new(alloc, array)?))
}

/// A whole number as a fraction.
fn whole_fraction(number: i128) -> Frac
    requires { Fits number }
    ensures { result ≡ frac_at (whole number) }
{
    Frac::of(number, 1).unwrap()
}

/// A whole number as a value.
fn whole_value(alloc: Global, number: i128) -> Result<Value, AllocError>
    requires { Fits number }
    ensures { IfOk result (λ v. meant v ≡ whole_value number) }
{
    number_value(alloc, whole_fraction(number))
}

/// What a `for` goes through.
#[derive(Drop)]
pub enum Through {
    /// The items of a list.
    Items(Rc<Items>),
    /// The numbers of a range.
    Range(Rc<Progression>),
    /// The numbers of a vector.
    Numbers(Rc<Array>),
}

impl Through {
    /// How many items there are.
    pub fn count(&self) -> usize
        ensures { result ≡ length (through_seen self.now) }
    {
        match self {
            Through::Items(items) => items.values().len(),
            Through::Range(range) => range.count as usize,
            Through::Numbers(array) => array.entries.as_slice().len(),
        }
    }

    /// Item `k`, from 0. No list is made, and none is walked through.
    pub fn item(&self, alloc: Global, k: usize) -> Result<Value, AllocError>
        requires { k < length (through_seen self.now) }
        ensures { IfOk result (λ v. slice_get (through_seen self.now) k ≡ Some (meant v)) }
    {
        match self {
            Through::Items(items) => items.values()[k].share(),
            Through::Range(range) => whole_value(alloc, number_of(range, k)),
            Through::Numbers(array) => number_value(alloc, array.entries.as_slice()[k]),
        }
    }
}

/// The items of a range, a list or a plain vector; nothing else is offered, at the word `for`.
pub fn items_through(place: Place, value: Value) -> Result<Through, ElabFault>
    ensures { (s : MeantState) → Gives through_seen result s (items_through place (meant value) s) }
{
    match value {
        Value::List(items) => Ok(Through::Items(items)),
        Value::Range(range) => Ok(Through::Range(range)),
        Value::Plain(array) => match array.shape.sides() {
            Sides::Vector(_) => Ok(Through::Numbers(array)),
            _ => Err(ElabFault::NotOffered(place)),
        },
        _ => Err(ElabFault::NotOffered(place)),
    }
}
