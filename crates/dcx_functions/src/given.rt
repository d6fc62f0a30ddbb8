//! What is given for the arguments of a call.
ghost use Rattle.std.specs.Prelude.{◌≡◌, ◌≤◌, length, map, option_map, pos, IfOk};
ghost use Rattle.dcx_frac.specs.Fits.{Fits};
ghost use Rattle.dcx_script_values.specs.Values.{State};
ghost use Rattle.dcx_script_values.specs.Kinds as kinds;
ghost use Rattle.dcx_script_values.specs.Meant.{meant};
ghost use Rattle.dcx_script_values.specs.View.{read_as, meant_operand, extent_sides, Gives};
ghost use Rattle.dcx_signature.specs.Arguments.{value_for};
ghost use Rattle.dcx_signature.specs.Fits as fits;
ghost use Rattle.dcx_signature.specs.Table.{shape_word};
ghost use Rattle.dcx_functions.specs.Calls as meaning;

use dcx_atom::Axis;
use dcx_script_values::{
    ElabFault, Extent, Operand, Reading, Value, axis_of, operand_read, read_value, sides_from,
    told_side, whole_number,
};
use dcx_shape::Place;
use dcx_signature::Bound;
use std::alloc::{AllocError, Global};

/// What is given for an argument, where an expression is wanted; nothing is of a wrong kind.
pub(crate) fn reading_of(alloc: Global, word: &str, bound: &Bound) -> Result<Reading, AllocError>
    ensures { IfOk result (λ r. read_as r ≡ meaning.reading_of word.now bound.now) }
{
    match bound.given(word) {
        Some(value) => read_value(alloc, value),
        None => Ok(Reading::Unfit),
    }
}

/// The operand that is given for an argument. `NotOffered` of a nested list, `EmptyResult` of an empty one, and
/// `BadArgument` of a value of a wrong kind.
pub(crate) fn operand_for(
    alloc: Global,
    place: Place,
    word: &str,
    bound: &Bound,
) -> Result<Operand, ElabFault>
    ensures { (s : State) → Gives meant_operand result s (meaning.operand_for place word.now bound.now s) }
{
    let reading = reading_of(alloc, word, bound)?;
    operand_read(place, reading)
}

/// The axis, and all entries where none is given.
pub(crate) fn axis_for(bound: &Bound) -> Axis
    ensures { result ≡ meaning.axis_for bound.now }
{
    match bound.given("axis") {
        Some(value) => axis_of(value).unwrap_or(Axis::All),
        None => Axis::All,
    }
}

/// A whole number, and the default where none is given.
pub(crate) fn whole_or(default: i128, word: &str, bound: &Bound) -> i128
    requires { Fits default }
    ensures value { result ≡ meaning.whole_or default word.now bound.now }
    ensures fits { Fits result }
{
    match bound.given(word) {
        Some(value) => whole_number(value).unwrap_or(default),
        None => default,
    }
}

/// A whole number without its sign, and the default where none is given.
pub(crate) fn natural_or(default: u8, word: &str, bound: &Bound) -> u128
    ensures { result ≡ meaning.natural_or default word.now bound.now }
{
    whole_or(default as i128, word, bound).unsigned_abs()
}

/// Of how many entries a call is; the greatest number of its type where more are asked for.
pub(crate) fn share_for(bound: &Bound) -> u32
    ensures { result ≡ meaning.share_for bound.now }
{
    told_side(natural_or(1, "k", bound))
}

/// How many arguments there are; the greatest number of its type where there are more.
pub(crate) fn count_of(bound: &Bound) -> u32
    ensures { result ≡ meaning.count_of bound.now }
{
    told_side(bound.arguments().len() as u128)
}

/// Whether a value is `True`.
fn is_true(value: &Value) -> bool
    ensures { result ≡ fits.is_true (meant value.now) }
{
    match value {
        Value::Truth(truth) => *truth,
        _ => false,
    }
}

/// Whether `True` is given.
pub(crate) fn is_set(word: &str, bound: &Bound) -> bool
    ensures { result ≡ meaning.is_set word.now bound.now }
{
    match bound.given(word) {
        Some(value) => is_true(value),
        None => false,
    }
}

/// The items of a list; none of another value.
fn list_items<'a>(value: &'a Value) -> &'a [Value]
    ensures items { map meant result.now ≡ kinds.list_items (meant value.now) }
    ensures few { length result.now ≤ 20000 }
{
    match value {
        Value::List(items) => items.values(),
        _ => &[],
    }
}

/// The items of a list that is given.
pub(crate) fn items_for<'a>(word: &str, bound: &'a Bound) -> &'a [Value]
    ensures items { map meant result.now ≡ meaning.items_for word.now bound.now }
    ensures few { length result.now ≤ 20000 }
{
    match bound.given(word) {
        Some(value) => list_items(value),
        None => &[],
    }
}

/// The sides that are given; None where there are none.
pub(crate) fn extent_for(least: u8, bound: &Bound) -> Option<Extent>
    ensures { option_map extent_sides result ≡ kinds.sides_from (pos least) (value_for shape_word bound.now) }
{
    match bound.given("shape") {
        Some(value) => sides_from(least, value),
        None => None,
    }
}
