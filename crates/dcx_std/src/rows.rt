//! The rows of a scaled program, made of whole rows.
ghost use Rattle.std.specs.Prelude.{◌≡◌, ℕ, ◌<◌, ◌≤◌, ◌^◌, List, ◌++◌, ◌∷◌, [], map, length, pos, negsuc, int_lt, unsigned_abs, IfOk, Contains, Some, slice_get};
ghost use Rattle.dcx_std.specs.declared.whole.WholeRow.{WholeRow};
ghost use Rattle.std.specs.List.{All};
ghost use Rattle.dcx_tab.specs.Rows.{entry, AllSmall};
ghost use Rattle.dcx_std.specs.Columns.{turned, number_in, cost_in, start_column};
ghost use Rattle.dcx_std.specs.IntegerRows.{start_of, IsMadeOf, AreMadeOf, IsCostOf};

use crate::columns::place_of;
use crate::start::{Start, first_column};
use crate::whole::WholeRow;
use dcx_tab::{ColumnKind, CostRow, IntRow, Ints};
use std::alloc::{AllocError, Global};

/// The number at a place, and 0 past the end.
fn number_at(numbers: &[i128], place: usize) -> i128
    ensures { result ≡ entry numbers.now place }
{
    match numbers.get(place) {
        Some(number) => *number,
        None => 0,
    }
}

/// The number, or the number with its sign turned.
fn turned_number(is_turned: bool, number: i128) -> i128
    requires { unsigned_abs number < 2 ^ 127 }
    ensures { result ≡ turned is_turned number }
{
    if is_turned { -number } else { number }
}

/// How the whole row over so many unknowns starts.
fn start(row: &WholeRow, count: usize) -> Start
    ensures { result ≡ start_of count row.now }
{
    Start {
        kind: row.kind,
        negated: number_at(row.numbers.as_slice(), count) < 0,
    }
}

/// How the whole rows over so many unknowns start.
pub(crate) fn all_starts(
    alloc: Global,
    rows: &[WholeRow],
    count: usize,
) -> Result<Vec<Start>, AllocError>
    ensures { IfOk result (λ v. v.items ≡ map (start_of count) rows.now) }
{
    let mut starts = Vec::with_capacity(alloc, rows.len())?;
    'rows: for row in rows {
        starts.push(start(row, count))?;
    }
    Ok(starts)
}

/// What the row with this index has at a column.
fn row_entry(row: u32, is_negated: bool, numbers: &[i128], column: ColumnKind) -> i128
    requires { AllSmall numbers.now }
    ensures { result ≡ number_in row is_negated numbers.now column }
{
    match column {
        ColumnKind::Unknown { unknown, negated } => {
            let number = number_at(numbers, unknown as usize);
            turned_number(is_negated, turned_number(negated, number))
        }
        ColumnKind::Slack { row: own } => {
            if own != row {
                0
            } else if is_negated {
                -1
            } else {
                1
            }
        }
        ColumnKind::Artificial { row: own } => i128::from(own == row),
    }
}

/// What the row with this index has at the columns.
fn row_entries(
    alloc: Global,
    columns: &[ColumnKind],
    row: u32,
    is_negated: bool,
    numbers: &[i128],
) -> Result<Vec<i128>, AllocError>
    requires { AllSmall numbers.now }
    ensures { IfOk result (λ v. v.items ≡ map (number_in row is_negated numbers.now) columns.now) }
{
    let mut entries = Vec::with_capacity(alloc, columns.len())?;
    'columns: for column in columns {
        entries.push(row_entry(row, is_negated, numbers, *column))?;
    }
    Ok(entries)
}

/// The row with this index, made of a whole row over so many unknowns.
fn int_row(
    alloc: Global,
    columns: &[ColumnKind],
    count: usize,
    index: u32,
    row: &WholeRow,
) -> Result<IntRow, AllocError>
    requires small { AllSmall row.now.numbers }
    requires there { Contains columns.now (start_column index (start_of count row.now)) }
    requires few { length columns.now < 2 ^ 32 }
    ensures { IfOk result (IsMadeOf columns.now count index row.now) }
{
    let start = start(row, count);
    let numbers = row.numbers.as_slice();
    let entries = row_entries(alloc, columns, index, start.negated, numbers)?;
    Ok(IntRow {
        entries: Ints::from_vec(entries),
        right: turned_number(start.negated, number_at(numbers, count)),
        basic: place_of(columns, first_column(index, start)),
        factor: row.factor,
        negated: start.negated,
    })
}

/// The rows, made of whole rows over so many unknowns.
pub(crate) fn int_rows(
    alloc: Global,
    columns: &[ColumnKind],
    count: usize,
    rows: &[WholeRow],
) -> Result<Vec<IntRow>, AllocError>
    requires small { All (λ w. AllSmall w.numbers) rows.now }
    requires there { (i : ℕ) (w : WholeRow) → slice_get rows.now i ≡ Some w → Contains columns.now (start_column i (start_of count w)) }
    requires few_rows { length rows.now < 2 ^ 32 }
    requires few { length columns.now < 2 ^ 32 }
    ensures { IfOk result (λ v. AreMadeOf columns.now count 0 rows.now v.items) }
{
    let mut made = Vec::with_capacity(alloc, rows.len())?;
    'rows: for (index, row) in rows.iter().enumerate() {
        made.push(int_row(alloc, columns, count, index as u32, row)?)?;
    }
    Ok(made)
}

/// What the cost has at a column.
fn cost_entry(numbers: &[i128], column: ColumnKind) -> i128
    requires { AllSmall numbers.now }
    ensures { result ≡ cost_in numbers.now column }
{
    match column {
        ColumnKind::Unknown { unknown, negated } => {
            turned_number(negated, number_at(numbers, unknown as usize))
        }
        ColumnKind::Slack { .. } | ColumnKind::Artificial { .. } => 0,
    }
}

/// The objective row, made of the whole row over so many unknowns.
pub(crate) fn cost_row(
    alloc: Global,
    columns: &[ColumnKind],
    count: usize,
    row: &WholeRow,
) -> Result<CostRow, AllocError>
    requires small { AllSmall row.now.numbers }
    requires few { count ≤ 2400 }
    ensures { IfOk result (IsCostOf columns.now count row.now) }
{
    let numbers = row.numbers.as_slice();
    let mut entries = Vec::with_capacity(alloc, columns.len())?;
    'columns: for column in columns {
        entries.push(cost_entry(numbers, *column))?;
    }
    let lead = number_at(numbers, count + 1);
    let right = number_at(numbers, count);
    Ok(CostRow {
        entries: Ints::from_vec(entries),
        lead,
        right,
    })
}
