//! Calls as they are written: a word, and what else the call is made of.
use crate::lines::{CaseFault, array, count, name, shape};
use dcx_affine::{
    CumSum, Diag, Diff, HStack, Index, Mean, Minus, Pairing, Plus, Promote, Reshape, Sum, Trace,
    Transpose, VStack,
};
use dcx_atom::Axis;
use dcx_call::{AtomCall, Attribute, Call, LinearCall, Parameter, Variable, Whole};
use dcx_elem::{Abs, Maximum, Minimum, Neg, Pos};
use dcx_fold::{CumMax, MaxOf, MinOf, Norm1, NormInf, SumLargest, SumSmallest};
use dcx_shape::{Places, Shape};
use std::alloc::Global;

/// A word and what stands behind it, nothing where the word is alone.
fn word_and_rest(text: &str) -> (&str, &str) {
    text.split_once(' ').unwrap_or((text, ""))
}

/// Along which side; `None` where a text doesn't say.
fn axis(text: &str) -> Option<Axis> {
    match text {
        "" => Some(Axis::All),
        "0" => Some(Axis::Zero),
        "1" => Some(Axis::One),
        _ => None,
    }
}

/// The call of so many, or of the so many greatest or least entries; `None` where there is none.
fn counting_atom(word: &str, count: u32) -> Option<AtomCall> {
    match word {
        "maximum" => Some(AtomCall::Maximum(Maximum { count })),
        "minimum" => Some(AtomCall::Minimum(Minimum { count })),
        "sum_largest" => Some(AtomCall::SumLargest(SumLargest { k: count })),
        "sum_smallest" => Some(AtomCall::SumSmallest(SumSmallest { k: count })),
        _ => None,
    }
}

/// The call along an axis; `None` where there is none.
fn folding_atom(word: &str, axis: Axis) -> Option<AtomCall> {
    match word {
        "max" => Some(AtomCall::MaxOf(MaxOf { axis })),
        "min" => Some(AtomCall::MinOf(MinOf { axis })),
        "norm1" => Some(AtomCall::Norm1(Norm1 { axis })),
        "norm_inf" => Some(AtomCall::NormInf(NormInf { axis })),
        _ => None,
    }
}

/// The call of a word and an axis or a count, as `max 0` along the rows and `max` of all entries; `None` where there is none.
fn made_atom(word: &str, rest: &str) -> Option<AtomCall> {
    if let Some(axis) = axis(rest) {
        if let Some(atom) = folding_atom(word, axis) {
            return Some(atom);
        }
    }
    match count(rest) {
        Ok(count) => counting_atom(word, count),
        Err(_) => None,
    }
}

/// The nonlinear call of a text; `None` where there is none.
fn atom_of(text: &str) -> Option<AtomCall> {
    match text {
        "abs" => Some(AtomCall::Abs(Abs)),
        "pos" => Some(AtomCall::Pos(Pos)),
        "neg" => Some(AtomCall::Neg(Neg)),
        "cummax" => Some(AtomCall::CumMax(CumMax)),
        _ => {
            let (word, rest) = word_and_rest(text);
            made_atom(word, rest)
        }
    }
}

/// The nonlinear call of a text.
pub(crate) fn atom(text: &str) -> Result<AtomCall, CaseFault> {
    atom_of(text).ok_or(CaseFault::Unreadable)
}

/// The entry of a scalar, at its only place.
fn only_entry(alloc: Global) -> Result<LinearCall, CaseFault> {
    let places = vec![in alloc; 0u32]?;
    Ok(LinearCall::Index(Index {
        from: Shape::scalar(),
        to: Shape::scalar(),
        places: Places::from_vec(places),
    }))
}

/// Whether entries are read column by column, or else row by row.
pub(crate) fn by_columns(order: &str) -> Result<bool, CaseFault> {
    match order {
        "columns" => Ok(true),
        "rows" => Ok(false),
        _ => Err(CaseFault::Unreadable),
    }
}

/// The same entries in another shape, row by row or column by column.
fn reshape(text: &str) -> Result<LinearCall, CaseFault> {
    let (to, order) = word_and_rest(text);
    let (to, by_columns) = (shape(to)?, by_columns(order)?);
    Ok(LinearCall::Reshape(Reshape { to, by_columns }))
}

/// The array broadcast to a shape.
fn promote(text: &str) -> Result<LinearCall, CaseFault> {
    let to = shape(text)?;
    Ok(LinearCall::Promote(Promote { to }))
}

/// The call along an axis.
fn summing(word: &str, axis: Axis) -> Result<LinearCall, CaseFault> {
    match word {
        "sum" => Ok(LinearCall::Sum(Sum { axis })),
        "mean" => Ok(LinearCall::Mean(Mean { axis })),
        "cumsum" => Ok(LinearCall::CumSum(CumSum { axis })),
        _ => Err(CaseFault::Unreadable),
    }
}

/// The call along an axis, or into another shape.
fn shaping(text: &str) -> Result<LinearCall, CaseFault> {
    let (word, rest) = word_and_rest(text);
    match word {
        "reshape" => reshape(rest),
        "promote" => promote(rest),
        _ => match axis(rest) {
            Some(axis) => summing(word, axis),
            None => Err(CaseFault::Unreadable),
        },
    }
}

/// The linear call of a text.
pub(crate) fn linear(alloc: Global, text: &str) -> Result<LinearCall, CaseFault> {
    match text {
        "+" => Ok(LinearCall::Plus(Plus)),
        "-" => Ok(LinearCall::Minus(Minus)),
        "diff" => Ok(LinearCall::Diff(Diff)),
        "trace" => Ok(LinearCall::Trace(Trace)),
        "diag" => Ok(LinearCall::Diag(Diag)),
        "entry" => only_entry(alloc),
        "transpose" => Ok(LinearCall::Transpose(Transpose)),
        "hstack" => Ok(LinearCall::HStack(HStack)),
        "vstack" => Ok(LinearCall::VStack(VStack)),
        _ => shaping(text),
    }
}

/// The product or the quotient of a word, `None` where there is none.
pub(crate) fn pairing(word: &str) -> Option<Pairing> {
    match word {
        "*" => Some(Pairing::Times),
        "@" => Some(Pairing::MatTimes),
        "/" => Some(Pairing::Over),
        _ => None,
    }
}

/// The attribute of a word.
fn attribute(word: &str) -> Result<Attribute, CaseFault> {
    match word {
        "free" => Ok(Attribute::Free),
        "nonneg" => Ok(Attribute::Nonneg),
        "nonpos" => Ok(Attribute::Nonpos),
        "symmetric" => Ok(Attribute::Symmetric),
        "diag" => Ok(Attribute::Diag),
        _ => Err(CaseFault::Unreadable),
    }
}

/// Which entries are whole, by a word.
fn whole(word: &str) -> Result<Whole, CaseFault> {
    match word {
        "real" => Ok(Whole::Not),
        "integer" => Ok(Whole::Integer),
        "boolean" => Ok(Whole::Boolean),
        _ => Err(CaseFault::Unreadable),
    }
}

/// The variable of a name and a shape, of which this is demanded: `nonneg integer`.
pub(crate) fn variable(
    alloc: Global,
    text: &str,
    demands: &str,
    shape: Shape,
) -> Result<Variable, CaseFault> {
    let (kind, entries) = word_and_rest(demands);
    let (attribute, whole) = (attribute(kind)?, whole(entries)?);
    Ok(Variable {
        name: name(alloc, text)?,
        shape,
        attribute,
        whole,
    })
}

/// A scalar variable.
fn scalar_variable(alloc: Global, text: &str) -> Result<Call, CaseFault> {
    let (text, demands) = word_and_rest(text);
    Ok(Call::Variable(variable(alloc, text, demands, Shape::scalar())?))
}

/// A scalar parameter.
fn scalar_parameter(alloc: Global, text: &str) -> Result<Call, CaseFault> {
    let (text, kind) = word_and_rest(text);
    let attribute = attribute(kind)?;
    Ok(Call::Parameter(Parameter {
        name: name(alloc, text)?,
        shape: Shape::scalar(),
        attribute,
    }))
}

/// The call of a text that is no leaf.
fn inner(alloc: Global, text: &str) -> Result<Call, CaseFault> {
    if let Some(pairing) = pairing(text) {
        return Ok(Call::Pairing(pairing));
    }
    match atom_of(text) {
        Some(atom) => Ok(Call::Atom(atom)),
        None => Ok(Call::Linear(linear(alloc, text)?)),
    }
}

/// Any call of a text: a leaf, as `variable x free real`, `parameter p nonneg` or `constant (2) 1 0`, or another.
pub(crate) fn call(alloc: Global, text: &str) -> Result<Call, CaseFault> {
    match text.split_once(' ') {
        Some(("constant", rest)) => Ok(Call::Constant(array(alloc, rest)?)),
        Some(("variable", rest)) => scalar_variable(alloc, rest),
        Some(("parameter", rest)) => scalar_parameter(alloc, rest),
        _ => inner(alloc, text),
    }
}
