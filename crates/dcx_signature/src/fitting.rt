//! What a value must be to be given for an argument.
ghost use Rattle.std.specs.Prelude.{◌≡◌, ◌&&◌, map, not, option_map, pos};
ghost use Rattle.std.specs.List.{list_all};
ghost use Rattle.std.specs.Ordering.{int_eq};
ghost use Rattle.dcx_shape.specs.Shape.{sides_of};
ghost use Rattle.dcx_script_values.specs.Kinds.{axis_of, reading, whole_number};
ghost use Rattle.dcx_script_values.specs.Kinds as kinds;
ghost use Rattle.dcx_script_values.specs.Meant.{meant};
ghost use Rattle.dcx_signature.specs.Fits as meaning;

use crate::table::Takes;
use dcx_atom::Axis;
use dcx_script_values::{
    Value, are_rows, axis_of, is_constant, is_fit, is_number, sides_from, whole_number,
};
use dcx_shape::Shape;

// ---- texts and numbers

/// Whether a value is a text.
fn is_text(value: &Value) -> bool
    ensures { result ≡ meaning.is_text (meant value.now) }
{
    matches!(value, Value::Text(_))
}

/// Whether a text is one of two spellings of a word, in the one or the other quotes.
fn reads_as(value: &Value, one: &str, other: &str) -> bool
    ensures { result ≡ meaning.reads_as one.now other.now (meant value.now) }
{
    match value {
        Value::Text(text) => {
            text.as_slice() == one.as_bytes() || text.as_slice() == other.as_bytes()
        }
        _ => false,
    }
}

/// Whether a value is the text "F".
fn is_by_columns(value: &Value) -> bool
    ensures { result ≡ meaning.is_by_columns (meant value.now) }
{
    reads_as(value, "\"F\"", "'F'")
}

/// Whether a value is the text "C".
pub fn is_by_rows(value: &Value) -> bool
    ensures { result ≡ meaning.is_by_rows (meant value.now) }
{
    reads_as(value, "\"C\"", "'C'")
}

/// Whether a value is the text "inf".
pub fn is_infinity(value: &Value) -> bool
    ensures { result ≡ meaning.is_infinity (meant value.now) }
{
    reads_as(value, "\"inf\"", "'inf'")
}

/// Whether a value is the number 1.
pub fn is_one(value: &Value) -> bool
    ensures { result ≡ meaning.is_one (meant value.now) }
{
    match whole_number(value) {
        Some(number) => number == 1,
        None => false,
    }
}

/// Whether a value is a whole number other than 0.
fn is_step(value: &Value) -> bool
    ensures { result ≡ meaning.is_step (whole_number (meant value.now)) }
{
    match whole_number(value) {
        Some(step) => step != 0,
        None => false,
    }
}

/// Whether a value is a whole number that is at least 0.
fn is_count(value: &Value) -> bool
    ensures { result ≡ meaning.is_count (whole_number (meant value.now)) }
{
    match whole_number(value) {
        Some(count) => count >= 0,
        None => false,
    }
}

// ---- what depends on the argument x

/// Whether a number is from 1 to the number of entries of x, where its shape is known.
fn is_within(x: Option<Shape>, k: i128) -> bool
    ensures { result ≡ meaning.is_share (option_map sides_of x) k }
{
    match x {
        Some(shape) => k >= 1 && k <= shape.size() as i128,
        None => k >= 1,
    }
}

/// Whether a value is a whole number from 1 to the number of entries of x, where its shape is known.
fn is_share(x: Option<Shape>, value: &Value) -> bool
    ensures { result ≡ meaning.passes (meaning.is_share (option_map sides_of x)) (whole_number (meant value.now)) }
{
    match whole_number(value) {
        Some(k) => is_within(x, k),
        None => false,
    }
}

/// Whether an array of this shape, where it is known, has the side that an axis names.
fn has_axis(x: Option<Shape>, axis: Axis) -> bool
    ensures { result ≡ meaning.has_axis (option_map sides_of x) axis }
{
    match x {
        Some(shape) => axis.folded(shape).is_some(),
        None => true,
    }
}

/// Whether a value is an axis that x has, where its shape is known.
fn is_axis(x: Option<Shape>, value: &Value) -> bool
    ensures { result ≡ meaning.passes (meaning.has_axis (option_map sides_of x)) (axis_of (meant value.now)) }
{
    match axis_of(value) {
        Some(axis) => has_axis(x, axis),
        None => false,
    }
}

// ---- lists

/// Whether all items may be given where an expression is wanted.
fn are_fit(values: &[Value]) -> bool
    ensures { result ≡ list_all (λ v. kinds.is_fit (reading v)) (map meant values.now) }
{
    for value in values {
        if !is_fit(value) {
            return false;
        }
    }
    true
}

/// Whether a value is a constraint.
fn is_constraint(value: &Value) -> bool
    ensures { result ≡ meaning.is_constraint (meant value.now) }
{
    matches!(value, Value::Constraint(_))
}

/// Whether all items are constraints.
fn are_constraints(values: &[Value]) -> bool
    ensures { result ≡ list_all meaning.is_constraint (map meant values.now) }
{
    for value in values {
        if !is_constraint(value) {
            return false;
        }
    }
    true
}

/// Whether a value is a list of what may be given where an expression is wanted.
fn is_list_of_fit(value: &Value) -> bool
    ensures { result ≡ meaning.holds_all (λ v. kinds.is_fit (reading v)) (meant value.now) }
{
    match value {
        Value::List(items) => are_fit(items.values()),
        _ => false,
    }
}

/// Whether a value is a list of constraints.
fn is_list_of_constraints(value: &Value) -> bool
    ensures { result ≡ meaning.holds_all meaning.is_constraint (meant value.now) }
{
    match value {
        Value::List(items) => are_constraints(items.values()),
        _ => false,
    }
}

/// Whether a value is a list of numbers, or of equally long lists of numbers.
fn is_rows(value: &Value) -> bool
    ensures { result ≡ (kinds.is_list (meant value.now) && kinds.are_rows (kinds.list_items (meant value.now))) }
{
    match value {
        Value::List(items) => are_rows(items.values()),
        _ => false,
    }
}

/// Whether a value may be given for an argument, beside an x of this shape, where it is known.
pub fn fits(x: Option<Shape>, takes: Takes, value: &Value) -> bool
    ensures { result ≡ meaning.fits (option_map sides_of x) takes (meant value.now) }
{
    match takes {
        Takes::Anything => true,
        Takes::Expression => is_fit(value),
        Takes::Expressions => is_list_of_fit(value),
        Takes::Numbers => is_constant(value),
        Takes::Rows => is_rows(value),
        Takes::Whole => whole_number(value).is_some(),
        Takes::Step => is_step(value),
        Takes::Count => is_count(value),
        Takes::Share => is_share(x, value),
        Takes::Shape => sides_from(1, value).is_some(),
        Takes::ShapeOfNone => sides_from(0, value).is_some(),
        Takes::Axis => is_axis(x, value),
        Takes::Order => is_by_columns(value) || is_by_rows(value),
        Takes::NormOrder => is_number(value) || is_text(value),
        Takes::Text => is_text(value),
        Takes::Truth => matches!(value, Value::Truth(_)),
        Takes::Objective => matches!(value, Value::Objective(_)),
        Takes::Constraints => is_list_of_constraints(value),
    }
}
