//! What a value is where an expression is wanted.
ghost use Rattle.std.specs.Prelude.{◌≡◌, ◌<◌, ◌++◌, [], map, length, MatchOption, IfOk, IfSome, IfNone, OnOk, option_map};
ghost use Rattle.std.specs.List.{list_all, list_any};
ghost use Rattle.dcx_shape.specs.Shape.{sides_of};
ghost use Rattle.dcx_shape.specs.Sides.{HasFewEntries};
ghost use Rattle.dcx_script_values.specs.Kinds.{
  is_number,
  number_of,
  whole_number,
  is_list,
  vector_of,
  or_unfit,
  list_reading,
  reading,
  is_fit,
  is_constant,
  reading_sides,
  is_long,
  are_rows,
  rows_sides,
  row_numbers,
  rows_array,
};
ghost use Rattle.dcx_script_values.specs.Meant.{meant};
ghost use Rattle.dcx_script_values.specs.View.{read_as, form_of, is_fit_form, is_constant_form, HasNoNode};

use crate::value::Value;
use dcx_arena::NodeId;
use dcx_array::{array_with, as_whole};
use dcx_atom::Array;
use dcx_frac::Frac;
use dcx_shape::{Shape, Sides};
use std::alloc::{AllocError, Global};
use std::rc::Rc;

/// What a call takes: a node, or numbers that become a constant.
#[derive(Drop)]
pub enum Operand {
    /// A node.
    Standing(NodeId),
    /// Numbers.
    Constant(Rc<Array>),
}

/// What a value is where an expression is wanted.
#[derive(Drop)]
pub enum Reading {
    /// An operand.
    Operand(Operand),
    /// A list with a list in it, whatever else it holds.
    Nested,
    /// An empty list.
    Empty,
    /// A value of a wrong kind.
    Unfit,
}

/// What a list is where an expression is wanted.
#[derive(Clone, Copy)]
enum ListForm {
    Numbers,
    Nested,
    Empty,
    Unfit,
}

/// Whether a value is a plain number.
pub fn is_number(value: &Value) -> bool
    ensures { result ≡ is_number (meant value.now) }
{
    match value {
        Value::Plain(array) => array.shape.rank() == 0,
        _ => false,
    }
}

/// The number that a plain number is.
pub(crate) fn number_of(value: &Value) -> Frac
    ensures { result ≡ number_of (meant value.now) }
{
    match value {
        Value::Plain(array) => match array.entries.as_slice() {
            [first, ..] => *first,
            [] => Frac::zero(),
        },
        _ => Frac::zero(),
    }
}

/// The whole number that a value is.
pub fn whole_number(value: &Value) -> Option<i128>
    ensures { result ≡ whole_number (meant value.now) }
{
    match value {
        Value::Plain(array) => as_whole(array),
        _ => None,
    }
}

/// Whether all items are plain numbers.
pub(crate) fn are_numbers(values: &[Value]) -> bool
    ensures { result ≡ list_all is_number (map meant values.now) }
{
    for value in values {
        if !is_number(value) {
            return false;
        }
    }
    true
}

/// Whether a value is a list.
fn is_list(value: &Value) -> bool
    ensures { result ≡ is_list (meant value.now) }
{
    matches!(value, Value::List(_))
}

/// Whether a list is among the items.
fn holds_list(values: &[Value]) -> bool
    ensures { result ≡ list_any is_list (map meant values.now) }
{
    for value in values {
        if is_list(value) {
            return true;
        }
    }
    false
}

/// What a list of these items is where an expression is wanted.
fn list_form(values: &[Value]) -> ListForm
    ensures { result ≡ form_of (map meant values.now) }
{
    if values.is_empty() {
        ListForm::Empty
    } else if are_numbers(values) {
        ListForm::Numbers
    } else if holds_list(values) {
        ListForm::Nested
    } else {
        ListForm::Unfit
    }
}

/// The numbers of a list of plain numbers, put behind others.
fn push_numbers(numbers: &mut Vec<Frac>, values: &[Value]) -> Result<(), AllocError>
    ensures { OnOk result (numbers.new.items ≡ numbers.old.items ++ map number_of (map meant values.now)) }
{
    for value in values {
        numbers.push(number_of(value))?;
    }
    Ok(())
}

/// How many values there are; None where they are more than a side may be long.
fn count_of(values: &[Value]) -> Option<u32>
    ensures { MatchOption result (20000 < length values.now) (λ n. n ≡ length values.now) }
{
    u32::try_from(values.len()).ok()
}

/// The vector that a list of numbers stands for.
fn vector_of(alloc: Global, values: &[Value]) -> Result<Option<Array>, AllocError>
    ensures { IfOk result (λ o. o ≡ vector_of (map meant values.now)) }
{
    let mut numbers = Vec::with_capacity(alloc, values.len())?;
    push_numbers(&mut numbers, values)?;
    match count_of(values) {
        Some(n) => Ok(array_with(Sides::Vector(n), numbers)),
        None => Ok(None),
    }
}

/// What a list of numbers is where an expression is wanted.
fn vector_reading(alloc: Global, values: &[Value]) -> Result<Reading, AllocError>
    ensures { IfOk result (λ r. read_as r ≡ or_unfit (vector_of (map meant values.now))) }
{
    match vector_of(alloc, values)? {
        Some(array) => Ok(Reading::Operand(Operand::Constant(Rc::new(alloc, array)?))),
        None => Ok(Reading::Unfit),
    }
}

/// What a value is where an expression is wanted.
pub fn read_value(alloc: Global, value: &Value) -> Result<Reading, AllocError>
    ensures { IfOk result (λ r. read_as r ≡ reading (meant value.now)) }
{
    Ok(match value {
        Value::Plain(array) => Reading::Operand(Operand::Constant(array.clone()?)),
        Value::Expression(node) => Reading::Operand(Operand::Standing(*node)),
        Value::List(items) => match list_form(items.values()) {
            ListForm::Numbers => vector_reading(alloc, items.values())?,
            ListForm::Nested => Reading::Nested,
            ListForm::Empty => Reading::Empty,
            ListForm::Unfit => Reading::Unfit,
        },
        _ => Reading::Unfit,
    })
}

/// Whether a list of this form may be given where an expression is wanted.
fn is_fit_form(form: ListForm) -> bool
    ensures { result ≡ is_fit_form form }
{
    match form {
        ListForm::Unfit => false,
        _ => true,
    }
}

/// Whether a list of this form is one of numbers, of which there may be none.
fn is_constant_form(form: ListForm) -> bool
    ensures { result ≡ is_constant_form form }
{
    match form {
        ListForm::Empty => true,
        ListForm::Numbers => true,
        _ => false,
    }
}

/// Whether a value may be given where an expression is wanted.
pub fn is_fit(value: &Value) -> bool
    ensures { result ≡ is_fit (reading (meant value.now)) }
{
    match value {
        Value::Plain(_) => true,
        Value::Expression(_) => true,
        Value::List(items) => is_fit_form(list_form(items.values())),
        _ => false,
    }
}

/// Whether a value is numbers without a node: a plain number or array, or a list of numbers, which may be empty.
pub fn is_constant(value: &Value) -> bool
    ensures { result ≡ is_constant (reading (meant value.now)) }
{
    match value {
        Value::Plain(_) => true,
        Value::List(items) => is_constant_form(list_form(items.values())),
        _ => false,
    }
}

/// The shape of the vector that a list of numbers stands for.
fn vector_shape(values: &[Value]) -> Option<Shape>
    ensures { option_map sides_of result ≡ reading_sides [] (list_reading (map meant values.now)) }
{
    match list_form(values) {
        ListForm::Numbers => Shape::vector(count_of(values)?),
        _ => None,
    }
}

/// The shape of what a value without a node is where an expression is wanted.
pub fn plain_shape_of(value: &Value) -> Option<Shape>
    ensures { HasNoNode (meant value.now) → option_map sides_of result ≡ reading_sides [] (reading (meant value.now)) }
{
    match value {
        Value::Plain(array) => Some(array.shape),
        Value::List(items) => vector_shape(items.values()),
        _ => None,
    }
}

// ---- rows of numbers

/// Whether a value is a list of so many numbers.
fn is_row_of(value: &Value, length: usize) -> bool
    ensures { result ≡ is_long length (meant value.now) }
{
    match value {
        Value::List(items) => items.values().len() == length && are_numbers(items.values()),
        _ => false,
    }
}

/// Whether all items are lists of so many numbers.
fn are_rows_of(values: &[Value], length: usize) -> bool
    ensures { result ≡ list_all (is_long length) (map meant values.now) }
{
    for value in values {
        if !is_row_of(value, length) {
            return false;
        }
    }
    true
}

/// Whether a list is one of numbers, or of lists of numbers that are as long as the first.
pub fn are_rows(values: &[Value]) -> bool
    ensures { result ≡ are_rows (map meant values.now) }
{
    match values {
        [Value::List(row), ..] => are_rows_of(values, row.values().len()),
        _ => are_numbers(values),
    }
}

/// The sides of the array of rows of numbers; None where they are more than its type holds.
fn rows_sides(values: &[Value]) -> Option<Sides>
    ensures sides { IfSome result (λ s. s ≡ rows_sides (map meant values.now)) }
    ensures none { IfNone result (¬ HasFewEntries (rows_sides (map meant values.now))) }
{
    let count = count_of(values)?;
    match values {
        [Value::List(row), ..] => Some(Sides::Matrix(count, count_of(row.values())?)),
        _ => Some(Sides::Vector(count)),
    }
}

/// The numbers of a row, put behind others.
fn push_row(numbers: &mut Vec<Frac>, value: &Value) -> Result<(), AllocError>
    ensures { OnOk result (numbers.new.items ≡ numbers.old.items ++ row_numbers (meant value.now)) }
{
    match value {
        Value::List(items) => push_numbers(numbers, items.values()),
        _ => {
            numbers.push(number_of(value))?;
            Ok(())
        }
    }
}

/// The array of rows of numbers; None where they are not equally long, and where there is no entry.
pub fn rows_array(alloc: Global, values: &[Value]) -> Result<Option<Array>, AllocError>
    ensures { IfOk result (λ o. o ≡ rows_array (map meant values.now)) }
{
    if !are_rows(values) {
        return Ok(None);
    }
    let mut numbers = Vec::new(alloc);
    for value in values {
        push_row(&mut numbers, value)?;
    }
    match rows_sides(values) {
        Some(sides) => Ok(array_with(sides, numbers)),
        None => Ok(None),
    }
}
