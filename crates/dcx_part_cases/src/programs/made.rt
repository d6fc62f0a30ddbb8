//! Scaled programs as they are written.
use crate::lines::Number;
use dcx_tab::{ColumnKind, CostRow, IntRow, Program};
use std::alloc::{AllocError, Global};

/// Writes columns: `+0` and `-0` for the parts of unknown 0, `s0` and `a0` for the slack and the artificial of row 0.
fn put_columns(out: &mut String, kinds: &[ColumnKind]) -> Result<(), AllocError> {
    out.push_str("columns")?;
    for kind in kinds {
        let (front, number) = match kind {
            ColumnKind::Unknown {
                unknown,
                negated: false,
            } => ("+", *unknown),
            ColumnKind::Unknown {
                unknown,
                negated: true,
            } => ("-", *unknown),
            ColumnKind::Slack { row } => ("s", *row),
            ColumnKind::Artificial { row } => ("a", *row),
        };
        write!(out, " {front}{number}")?;
    }
    Ok(())
}

/// Writes whole numbers, each before a blank.
fn put_entries(out: &mut String, entries: &[i128]) -> Result<(), AllocError> {
    out.push_str("; ")?;
    for entry in entries {
        write!(out, "{entry} ")?;
    }
    Ok(())
}

/// Writes a row: its entries, its right side, its first basic column, its factor, and whether it was negated.
fn put_row(out: &mut String, row: &IntRow) -> Result<(), AllocError> {
    put_entries(out, row.entries.as_slice())?;
    let negated = if row.negated { ", negated" } else { "" };
    let (right, basic, factor) = (row.right, row.basic, Number(row.factor));
    write!(out, "= {right}, {basic} basic, times {factor}{negated}")
}

/// Writes a row of costs: its entries, its right side, and its lead.
fn put_cost(out: &mut String, cost: &CostRow) -> Result<(), AllocError> {
    put_entries(out, cost.entries.as_slice())?;
    write!(out, "= {}, lead {}", cost.right, cost.lead)
}

/// Writes the columns, the rows, the costs and the phase of a program.
pub(crate) fn put_program(out: &mut String, program: &Program) -> Result<(), AllocError> {
    put_columns(out, program.columns.as_slice())?;
    for row in program.rows.as_slice() {
        put_row(out, row)?;
    }
    put_cost(out, &program.objective)?;
    put_cost(out, &program.phase)
}
