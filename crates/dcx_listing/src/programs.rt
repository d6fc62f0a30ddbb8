//! The lines of a reduced program: how many rows and columns it has, the kinds of its unknowns, what is to be small, and its rows.
use crate::calls::{name_text, push_number};
use dcx_frac::Frac;
use dcx_graph::{Origin, Reduced, Reducible};
use dcx_linear::{Form, ParamForm, ParamTerm, Row, RowKind, UnknownKind, unknown_columns};
use std::alloc::AllocError;

/// Coefficients that have a text.
pub(crate) trait Shown: Reducible {
    /// Adds the coefficient, as the first of a form.
    fn push(&self, text: &mut String) -> Result<(), AllocError>;

    /// Adds ` + ` or ` - ` and the coefficient, with a blank behind it if it isn't 1.
    fn push_factor(&self, text: &mut String) -> Result<(), AllocError>;
}

/// Adds ` + ` or ` - ` and the magnitude of a fraction, with a blank behind it if it isn't 1.
fn push_signed(text: &mut String, number: Frac) -> Result<(), AllocError> {
    let num = number.num();
    let den = number.den();
    text.push_str(if num < 0 { " - " } else { " + " })?;
    let magnitude = num.unsigned_abs();
    if den != 1 {
        write!(text, "{magnitude}/{den} ")
    } else if magnitude != 1 {
        write!(text, "{magnitude} ")
    } else {
        Ok(())
    }
}

/// Adds the coefficient of a parameter's entry, and the entry.
fn push_entry(text: &mut String, term: &ParamTerm) -> Result<(), AllocError> {
    push_signed(text, term.coefficient)?;
    let name = name_text(&term.name);
    let entry = term.entry;
    write!(text, "{name}[{entry}]")
}

/// Adds what is affine in parameters.
fn push_affine(text: &mut String, form: &ParamForm) -> Result<(), AllocError> {
    text.push_str("(")?;
    push_number(text, form.constant)?;
    for term in form.terms.as_slice() {
        push_entry(text, term)?;
    }
    text.push_str(")")
}

impl Shown for Frac {
    fn push(&self, text: &mut String) -> Result<(), AllocError> {
        push_number(text, *self)
    }

    fn push_factor(&self, text: &mut String) -> Result<(), AllocError> {
        push_signed(text, *self)
    }
}

impl Shown for ParamForm {
    fn push(&self, text: &mut String) -> Result<(), AllocError> {
        if self.terms.as_slice().is_empty() {
            push_number(text, self.constant)
        } else {
            push_affine(text, self)
        }
    }

    fn push_factor(&self, text: &mut String) -> Result<(), AllocError> {
        if self.terms.as_slice().is_empty() {
            return push_signed(text, self.constant);
        }
        text.push_str(" + ")?;
        push_affine(text, self)?;
        text.push_str(" ")
    }
}

/// Adds a form.
fn push_form<C: Shown>(text: &mut String, form: &Form<C>) -> Result<(), AllocError> {
    form.constant.push(text)?;
    for term in form.terms.as_slice() {
        term.coefficient.push_factor(text)?;
        let unknown = term.unknown;
        write!(text, "u{unknown}")?;
    }
    Ok(())
}

/// Adds where a row comes from.
fn push_origin(text: &mut String, origin: Origin) -> Result<(), AllocError> {
    match origin {
        Origin::Constraint { constraint, entry } => {
            write!(text, "constraint {constraint} entry {entry}: ")
        }
        Origin::Graph { node, entry, row } => {
            let node = node.0;
            write!(text, "node {node} entry {entry} row {row}: ")
        }
    }
}

/// Adds a row with where it comes from.
fn push_row<C: Shown>(text: &mut String, row: &Row<C>, origin: Origin) -> Result<(), AllocError> {
    push_origin(text, origin)?;
    push_form(text, &row.form)?;
    text.push_str(match row.kind {
        RowKind::AtMost => " <= 0\n",
        RowKind::Equal => " == 0\n",
    })
}

/// Adds the kinds of the unknowns.
fn push_kinds(text: &mut String, kinds: &[UnknownKind]) -> Result<(), AllocError> {
    text.push_str("unknowns")?;
    for kind in kinds {
        text.push_str(match kind {
            UnknownKind::Free => " free",
            UnknownKind::Nonneg => " nonneg",
            UnknownKind::Nonpos => " nonpos",
        })?;
    }
    text.push_str("\n")
}

/// How many inequalities there are.
fn inequalities<C: Shown>(rows: &[Row<C>]) -> u32 {
    let mut count: u32 = 0;
    for row in rows {
        if matches!(row.kind, RowKind::AtMost) {
            count = count.saturating_add(1);
        }
    }
    count
}

/// Adds how many rows and columns there are: those of the unknowns, and one for each inequality.
fn push_size<C: Shown>(
    text: &mut String,
    rows: &[Row<C>],
    kinds: &[UnknownKind],
) -> Result<(), AllocError> {
    let columns = unknown_columns(kinds).saturating_add(inequalities(rows));
    let rows = rows.len();
    write!(text, "rows {rows} columns {columns}\n")
}

/// Adds the rows.
fn push_rows<C: Shown>(text: &mut String, reduced: &Reduced<C>) -> Result<(), AllocError> {
    let rows = reduced.rows().rows.as_slice();
    for (i, row) in rows.iter().enumerate() {
        if let Ok(number) = u32::try_from(i) {
            push_row(text, row, reduced.origin(number))?;
        }
    }
    Ok(())
}

/// Adds a program.
pub(crate) fn push_program<C: Shown>(
    text: &mut String,
    reduced: &Reduced<C>,
) -> Result<(), AllocError> {
    let program = reduced.rows();
    push_size(text, program.rows.as_slice(), program.kinds.as_slice())?;
    push_kinds(text, program.kinds.as_slice())?;
    text.push_str("minimize ")?;
    push_form(text, &program.objective)?;
    text.push_str("\n")?;
    push_rows(text, reduced)
}
