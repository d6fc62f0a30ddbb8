//! The columns of a scaled program.
ghost use Rattle.std.specs.Prelude.{◌≡◌, ◌<◌, ◌≤◌, [], ◌∷◌, ◌++◌, if◌then◌else◌, ◌^◌, length, map, Some, OnOk, IfOk, Contains, slice_get};
ghost use Rattle.dcx_std.specs.Columns.{unknown_columns, all_unknown_columns, slack_columns, artificial_columns, plain_columns_of};

use crate::start::{Start, is_artificial_there, is_slack_there};
use dcx_linear::UnknownKind;
use dcx_tab::ColumnKind;
use std::alloc::{AllocError, Global};

/// Puts the columns of an unknown at the end: of a free one the plus column and the minus column.
fn push_unknown(
    columns: &mut Vec<ColumnKind>,
    unknown: u32,
    kind: UnknownKind,
) -> Result<(), AllocError>
    ensures { OnOk result (columns.new.items ≡ columns.old.items ++ unknown_columns unknown kind) }
{
    let plus = ColumnKind::Unknown {
        unknown,
        negated: false,
    };
    let minus = ColumnKind::Unknown {
        unknown,
        negated: true,
    };
    match kind {
        UnknownKind::Free => {
            columns.push(plus)?;
            columns.push(minus)?;
        }
        UnknownKind::Nonneg => columns.push(plus)?,
        UnknownKind::Nonpos => columns.push(minus)?,
    }
    Ok(())
}

/// Puts the columns of the unknowns at the end.
fn push_unknowns(columns: &mut Vec<ColumnKind>, kinds: &[UnknownKind]) -> Result<(), AllocError>
    requires { length kinds.now < 2 ^ 32 }
    ensures { OnOk result (columns.new.items ≡ columns.old.items ++ all_unknown_columns 0 kinds.now) }
{
    'kinds: for (unknown, kind) in kinds.iter().enumerate() {
        push_unknown(columns, unknown as u32, *kind)?;
    }
    Ok(())
}

/// Puts the column at the end where it is wanted.
fn push_where(
    columns: &mut Vec<ColumnKind>,
    is_wanted: bool,
    column: ColumnKind,
) -> Result<(), AllocError>
    ensures { OnOk result (columns.new.items ≡ columns.old.items ++ (if is_wanted then column ∷ [] else [])) }
{
    if is_wanted {
        columns.push(column)?;
    }
    Ok(())
}

/// Puts the slacks of the rows at the end.
fn push_slacks(columns: &mut Vec<ColumnKind>, starts: &[Start]) -> Result<(), AllocError>
    requires { length starts.now < 2 ^ 32 }
    ensures { OnOk result (columns.new.items ≡ columns.old.items ++ slack_columns starts.now) }
{
    'starts: for (row, start) in starts.iter().enumerate() {
        let is_wanted = is_slack_there(*start);
        push_where(columns, is_wanted, ColumnKind::Slack { row: row as u32 })?;
    }
    Ok(())
}

/// Puts the artificials of the rows at the end.
pub(crate) fn push_artificials(
    columns: &mut Vec<ColumnKind>,
    starts: &[Start],
) -> Result<(), AllocError>
    requires { length starts.now < 2 ^ 32 }
    ensures { OnOk result (columns.new.items ≡ columns.old.items ++ artificial_columns starts.now) }
{
    'starts: for (row, start) in starts.iter().enumerate() {
        let is_wanted = is_artificial_there(*start);
        push_where(
            columns,
            is_wanted,
            ColumnKind::Artificial { row: row as u32 },
        )?;
    }
    Ok(())
}

/// The columns that aren't artificial, of unknowns of these kinds and rows that start so.
pub(crate) fn plain_columns(
    alloc: Global,
    kinds: &[UnknownKind],
    starts: &[Start],
) -> Result<Vec<ColumnKind>, AllocError>
    requires kinds { length kinds.now < 2 ^ 32 }
    requires starts { length starts.now < 2 ^ 32 }
    ensures { IfOk result (λ v. v.items ≡ plain_columns_of kinds.now starts.now) }
{
    let mut columns = Vec::new(alloc);
    push_unknowns(&mut columns, kinds)?;
    push_slacks(&mut columns, starts)?;
    Ok(columns)
}

/// The place of a column.
pub(crate) fn place_of(columns: &[ColumnKind], column: ColumnKind) -> u32
    requires there { Contains columns.now column }
    requires few { length columns.now < 2 ^ 32 }
    ensures { slice_get columns.now result ≡ Some column }
{
    'columns: for (place, kind) in columns.iter().enumerate() {
        if *kind == column {
            return place as u32;
        }
    }
    unreachable!()
}
