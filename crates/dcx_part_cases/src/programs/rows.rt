//! Rows over unknowns as they are written: the kinds of the unknowns, what is to be small, and the rows.
ghost use Rattle.std.specs.Prelude.{◌≤◌, ◌<◌, IfOk, OnOk};
ghost use Rattle.dcx_linear.specs.Widths.{form_width, rows_width};

use crate::lines::{CaseFault, numbers};
use dcx_frac::Frac;
use dcx_linear::{CoefStop, Form, Row, RowKind, RowList, Rows, UnknownKind, UnknownKinds};
use std::alloc::Global;

/// The kinds of unknowns.
fn kinds(alloc: Global, text: &str) -> Result<Vec<UnknownKind>, CaseFault> {
    let mut kinds = Vec::new(alloc);
    for word in text.split_whitespace() {
        kinds.push(match word {
            "free" => UnknownKind::Free,
            "nonneg" => UnknownKind::Nonneg,
            "nonpos" => UnknownKind::Nonpos,
            _ => return Err(CaseFault::Unreadable),
        })?;
    }
    Ok(kinds)
}

/// A multiple of an unknown.
fn multiple(
    alloc: Global,
    count: u32,
    unknown: u32,
    coefficient: Frac,
) -> Result<Form<Frac>, CoefStop>
    requires { unknown < count }
    ensures { IfOk result (λ f. form_width f ≤ count) }
{
    let one = Form::<Frac>::unknown(alloc, unknown)?;
    Ok(one.scale(alloc, &coefficient)?)
}

/// The sum of two forms in so many unknowns.
fn sum(
    alloc: Global,
    count: u32,
    left: &Form<Frac>,
    right: &Form<Frac>,
) -> Result<Form<Frac>, CoefStop>
    requires left { form_width left.now ≤ count }
    requires right { form_width right.now ≤ count }
    ensures { IfOk result (λ f. form_width f ≤ count) }
{
    Ok(left.add(alloc, right)?)
}

/// A constant, as a form in so many unknowns.
fn constant(alloc: Global, count: u32, x: Frac) -> Form<Frac>
    ensures { form_width result ≤ count }
{
    Form::<Frac>::number(alloc, x)
}

/// The form with a constant and the coefficients of so many unknowns.
fn form(
    alloc: Global,
    count: u32,
    number: Frac,
    coefficients: &[Frac],
) -> Result<Form<Frac>, CoefStop>
    ensures { IfOk result (λ f. form_width f ≤ count) }
{
    let mut form = constant(alloc, count, number);
    for unknown in 0..count {
        if let Some(coefficient) = coefficients.get(unknown as usize) {
            let term = multiple(alloc, count, unknown, *coefficient)?;
            form = sum(alloc, count, &form, &term)?;
        }
    }
    Ok(form)
}

/// The form of a text: its constant, and the coefficients of all unknowns.
pub(crate) fn form_of(alloc: Global, count: u32, text: &str) -> Result<Form<Frac>, CaseFault>
    ensures { IfOk result (λ f. form_width f ≤ count) }
{
    let numbers = numbers(alloc, text)?;
    match numbers.split_first() {
        Some((number, rest)) if rest.len() == count as usize => {
            match form(alloc, count, *number, rest) {
                Ok(form) => Ok(form),
                Err(_) => Err(CaseFault::Unreadable),
            }
        }
        _ => Err(CaseFault::Unreadable),
    }
}

/// The row of a text: a form that is at most 0, or 0.
fn row(alloc: Global, count: u32, text: &str) -> Result<Row<Frac>, CaseFault>
    ensures { IfOk result (λ r. form_width r.form ≤ count) }
{
    let (kind, rest) = match text.split_once(' ') {
        Some(("<=", rest)) => (RowKind::AtMost, rest),
        Some(("==", rest)) => (RowKind::Equal, rest),
        _ => return Err(CaseFault::Unreadable),
    };
    let form = form_of(alloc, count, rest)?;
    Ok(Row { kind, form })
}

/// Puts the row of a text at the end.
fn push_row(
    alloc: Global,
    count: u32,
    text: &str,
    rows: &mut Vec<Row<Frac>>,
) -> Result<(), CaseFault>
    requires { rows_width rows.old.items ≤ count }
    ensures { OnOk result (rows_width rows.new.items ≤ count) }
{
    Ok(rows.push(row(alloc, count, text)?)?)
}

/// The rows of texts, in order.
fn list(alloc: Global, count: u32, texts: &[&str]) -> Result<RowList<Frac>, CaseFault>
    ensures { IfOk result (λ l. rows_width l ≤ count) }
{
    let mut rows = Vec::new(alloc);
    'texts: for text in texts {
        push_row(alloc, count, *text, &mut rows)?;
    }
    Ok(RowList::from_vec(rows))
}

/// The rows of texts: the kinds of the unknowns, what is to be small, and the rows.
pub(crate) fn rows_of(alloc: Global, texts: &[&str]) -> Result<Rows<Frac>, CaseFault> {
    let (of_kinds, of_objective, of_rows) = match *texts {
        [of_kinds, of_objective, ref of_rows @ ..] => (of_kinds, of_objective, of_rows),
        _ => return Err(CaseFault::Unreadable),
    };
    let kinds = kinds(alloc, of_kinds)?;
    let Ok(count) = u32::try_from(kinds.len()) else {
        return Err(CaseFault::Unreadable);
    };
    let objective = form_of(alloc, count, of_objective)?;
    let rows = list(alloc, count, of_rows)?;
    Ok(Rows {
        rows,
        objective,
        kinds: UnknownKinds::from_vec(kinds),
    })
}
