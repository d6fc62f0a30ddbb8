//! The words of calls, each with its own fields.

use dcx_affine::Pairing;
use dcx_atom::Axis;
use dcx_call::{AtomCall, Call, LinearCall};
use dcx_frac::Frac;
use dcx_shape::{Name, Shape, Sides};
use dcx_tree::{Attribute, Parameter, Variable, Whole};
use std::alloc::AllocError;

/// Adds ` ()`, ` (n)` or ` (m,n)`.
pub(crate) fn push_shape(text: &mut String, shape: Shape) -> Result<(), AllocError> {
    match shape.sides() {
        Sides::Scalar => text.push_str(" ()"),
        Sides::Vector(n) => write!(text, " ({n})"),
        Sides::Matrix(m, n) => write!(text, " ({m},{n})"),
    }
}

/// The text of a name.
pub(crate) fn name_text(name: &Name) -> &str {
    str::from_utf8(name.as_slice()).unwrap_or("?")
}

/// Adds a blank and the name.
pub(crate) fn push_name(text: &mut String, name: &Name) -> Result<(), AllocError> {
    let name = name_text(name);
    write!(text, " {name}")
}

/// Adds a fraction.
pub(crate) fn push_number(text: &mut String, number: Frac) -> Result<(), AllocError> {
    let num = number.num();
    let den = number.den();
    if den == 1 {
        write!(text, "{num}")
    } else {
        write!(text, "{num}/{den}")
    }
}

/// Adds a word, and a blank and the number, for each.
pub(crate) fn push_numbers(
    text: &mut String,
    word: &str,
    numbers: &[Frac],
) -> Result<(), AllocError> {
    text.push_str(word)?;
    for number in numbers {
        text.push_str(" ")?;
        push_number(text, *number)?;
    }
    Ok(())
}

/// Adds along which side a call folds, where it isn't along all.
fn push_axis(text: &mut String, axis: Axis) -> Result<(), AllocError> {
    text.push_str(match axis {
        Axis::All => "",
        Axis::Zero => " axis 0",
        Axis::One => " axis 1",
    })
}

/// What is known of a variable or a parameter.
fn attribute_text(attribute: Attribute) -> &'static str {
    match attribute {
        Attribute::Free => "",
        Attribute::Nonneg => " nonneg",
        Attribute::Nonpos => " nonpos",
        Attribute::Symmetric => " symmetric",
        Attribute::Diag => " diag",
    }
}

/// Which entries of a variable are whole.
fn whole_text(whole: Whole) -> &'static str {
    match whole {
        Whole::Not => "",
        Whole::Integer => " integer",
        Whole::Boolean => " boolean",
    }
}

/// Adds a variable.
fn push_variable(text: &mut String, variable: &Variable) -> Result<(), AllocError> {
    let name = name_text(&variable.name);
    let attribute = attribute_text(variable.attribute);
    let whole = whole_text(variable.whole);
    write!(text, "variable {name}{attribute}{whole}")
}

/// Adds a parameter.
fn push_parameter(text: &mut String, parameter: &Parameter) -> Result<(), AllocError> {
    let name = name_text(&parameter.name);
    let attribute = attribute_text(parameter.attribute);
    write!(text, "parameter {name}{attribute}")
}

/// The word of a nonlinear call.
fn atom_word(atom: AtomCall) -> &'static str {
    match atom {
        AtomCall::Abs(_) => "abs",
        AtomCall::Maximum(_) => "maximum",
        AtomCall::Minimum(_) => "minimum",
        AtomCall::Pos(_) => "pos",
        AtomCall::Neg(_) => "neg",
        AtomCall::MaxOf(_) => "max",
        AtomCall::MinOf(_) => "min",
        AtomCall::Norm1(_) => "norm1",
        AtomCall::NormInf(_) => "norm_inf",
        AtomCall::SumLargest(_) => "sum_largest",
        AtomCall::SumSmallest(_) => "sum_smallest",
        AtomCall::CumMax(_) => "cummax",
    }
}

/// Along which side a nonlinear call folds.
fn atom_axis(atom: AtomCall) -> Axis {
    match atom {
        AtomCall::MaxOf(call) => call.axis,
        AtomCall::MinOf(call) => call.axis,
        AtomCall::Norm1(call) => call.axis,
        AtomCall::NormInf(call) => call.axis,
        _ => Axis::All,
    }
}

/// How many entries a nonlinear call sums, where it says so.
fn atom_count(atom: AtomCall) -> Option<u32> {
    match atom {
        AtomCall::SumLargest(call) => Some(call.k),
        AtomCall::SumSmallest(call) => Some(call.k),
        _ => None,
    }
}

/// Adds a nonlinear call.
fn push_atom(text: &mut String, atom: AtomCall) -> Result<(), AllocError> {
    text.push_str(atom_word(atom))?;
    match atom_count(atom) {
        Some(k) => write!(text, " {k}"),
        None => push_axis(text, atom_axis(atom)),
    }
}

/// Adds the places that an index takes.
fn push_places(text: &mut String, places: &[u32]) -> Result<(), AllocError> {
    for place in places {
        write!(text, " {place}")?;
    }
    Ok(())
}

/// The word of a linear call.
fn linear_word(linear: &LinearCall) -> &'static str {
    match linear {
        LinearCall::Plus(_) => "plus",
        LinearCall::Minus(_) => "minus",
        LinearCall::Sum(_) => "sum",
        LinearCall::Mean(_) => "mean",
        LinearCall::CumSum(_) => "cumsum",
        LinearCall::Diff(_) => "diff",
        LinearCall::Trace(_) => "trace",
        LinearCall::Diag(_) => "diag",
        LinearCall::Index(_) => "index",
        LinearCall::Reshape(call) if call.by_columns => "reshape by columns",
        LinearCall::Reshape(_) => "reshape by rows",
        LinearCall::Transpose(_) => "transpose",
        LinearCall::HStack(_) => "hstack",
        LinearCall::VStack(_) => "vstack",
        LinearCall::Promote(_) => "promote",
    }
}

/// Along which side a linear call folds.
fn linear_axis(linear: &LinearCall) -> Axis {
    match linear {
        LinearCall::Sum(call) => call.axis,
        LinearCall::Mean(call) => call.axis,
        LinearCall::CumSum(call) => call.axis,
        _ => Axis::All,
    }
}

/// Adds a linear call.
fn push_linear(text: &mut String, linear: &LinearCall) -> Result<(), AllocError> {
    text.push_str(linear_word(linear))?;
    match linear {
        LinearCall::Index(call) => push_places(text, call.places.as_slice()),
        _ => push_axis(text, linear_axis(linear)),
    }
}

/// The word of a product or a quotient.
fn pairing_word(pairing: Pairing) -> &'static str {
    match pairing {
        Pairing::Times => "times",
        Pairing::MatTimes => "matmul",
        Pairing::Over => "over",
    }
}

/// Adds a call: its word and its own fields.
pub(crate) fn push_call(text: &mut String, call: &Call) -> Result<(), AllocError> {
    match call {
        Call::Variable(variable) => push_variable(text, variable),
        Call::Parameter(parameter) => push_parameter(text, parameter),
        Call::Constant(array) => push_numbers(text, "constant", array.entries.as_slice()),
        Call::Atom(atom) => push_atom(text, *atom),
        Call::Linear(linear) => push_linear(text, linear),
        Call::Pairing(pairing) => text.push_str(pairing_word(*pairing)),
    }
}
