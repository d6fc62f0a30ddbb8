//! The scaled program of rows.
ghost use Rattle.std.specs.Prelude.{◌≡◌, ◌<◌, ◌≤◌, ◌^◌, length, map, Ok, IfOk, IfErr, OnOk};
ghost use Rattle.std.specs.List.{All};
ghost use Rattle.dcx_linear.specs.Widths.{rows_width};
ghost use Rattle.dcx_std.specs.WholeRows.{row_made, IsSparseForm};
ghost use Rattle.dcx_std.specs.GivenRows.{given};
ghost use Rattle.dcx_std.specs.IntegerRows.{passing_from, result_at, StopsAt, IsFitting, AreWhole, IsStopOf, IsMade};

use crate::columns::{plain_columns, push_artificials};
use crate::phase::phase_row;
use crate::rows::{all_starts, cost_row, int_rows};
use crate::size::check_size;
use crate::stop::RowStop;
use crate::whole::{WholeRow, whole_cost, whole_row};
use dcx_answer::Site;
use dcx_frac::Frac;
use dcx_linear::{CoefStop, Row, Rows};
use dcx_tab::{ColumnKinds, IntRows, Program};
use std::alloc::Global;

/// The same result, where an operation that passes stands at the row with this number.
fn at_row<T: Drop>(row: u32, given: Result<T, CoefStop>) -> Result<T, RowStop>
    ensures { result ≡ result_at row given }
{
    match given {
        Ok(made) => Ok(made),
        Err(CoefStop::Passes(passes)) => Err(RowStop::Wide(Site::Row { row, passes })),
        Err(CoefStop::Memory) => Err(RowStop::Memory),
    }
}

/// The rows over so many unknowns, made whole.
fn made_rows(alloc: Global, rows: &[Row<Frac>], count: usize) -> Result<Vec<WholeRow>, RowStop>
    requires known { rows_width rows.now ≤ count }
    requires few { length rows.now ≤ 600 }
    ensures rows { IfOk result (λ v. map Ok v.items ≡ map (row_made count) rows.now) }
    ensures sparse { OnOk result (All (λ r. IsSparseForm r.form) rows.now) }
    ensures stops { IfErr result (λ e. StopsAt e (passing_from 0 (map (row_made count) rows.now))) }
{
    let mut made = Vec::with_capacity(alloc, rows.len())?;
    'rows: for (index, row) in rows.iter().enumerate() {
        let whole = at_row(index as u32, whole_row(alloc, row, count))?;
        made.push(whole)?;
    }
    Ok(made)
}

/// The rows of a program and its objective row, made whole.
#[derive(Drop)]
pub(crate) struct WholeProgram {
    /// The rows.
    pub(crate) rows: Vec<WholeRow>,
    /// The row `z - cost = constant`.
    pub(crate) cost: WholeRow,
}

/// The rows and the objective row, made whole one after the other.
fn whole_program(alloc: Global, rows: &Rows<Frac>) -> Result<WholeProgram, RowStop>
    requires { IsFitting (given rows.now.kinds rows.now.rows rows.now.objective) }
    ensures whole { IfOk result (AreWhole (given rows.now.kinds rows.now.rows rows.now.objective)) }
    ensures stops { IfErr result (IsStopOf (given rows.now.kinds rows.now.rows rows.now.objective)) }
{
    let list = rows.rows.as_slice();
    let kinds = rows.kinds.as_slice();
    let count = kinds.len();
    let number = list.len() as u32;
    let made = made_rows(alloc, list, count)?;
    let cost = at_row(number, whole_cost(alloc, &rows.objective, count))?;
    Ok(WholeProgram { rows: made, cost })
}

/// The program that the whole rows make up.
fn assembled(alloc: Global, rows: &Rows<Frac>, whole: &WholeProgram) -> Result<Program, RowStop>
    requires fits { IsFitting (given rows.now.kinds rows.now.rows rows.now.objective) }
    requires whole { AreWhole (given rows.now.kinds rows.now.rows rows.now.objective) whole.now }
    ensures made { IfOk result (IsMade (given rows.now.kinds rows.now.rows rows.now.objective)) }
    ensures stops { IfErr result (IsStopOf (given rows.now.kinds rows.now.rows rows.now.objective)) }
{
    let kinds = rows.kinds.as_slice();
    let count = kinds.len();
    let made = whole.rows.as_slice();
    let starts = all_starts(alloc, made, count)?;
    let mut columns = plain_columns(alloc, kinds, starts.as_slice())?;
    let plain = columns.len();
    push_artificials(&mut columns, starts.as_slice())?;
    let all = columns.as_slice();
    let width = all.len();
    let ints = int_rows(alloc, all, count, made)?;
    let objective = cost_row(alloc, all, count, &whole.cost)?;
    let number = made.len() as u32 + 1;
    let phase = at_row(number, phase_row(alloc, ints.as_slice(), plain, width))?;
    Ok(Program {
        rows: IntRows::from_vec(ints),
        columns: ColumnKinds::from_vec(columns),
        objective,
        phase,
    })
}

/// The scaled program of rows.
///
/// `TooLarge` exactly where there are over 600 rows, or 2,400 columns without the artificials, and before anything else.
/// `Wide` exactly at the first operation that passes 128 bits, with the number of its row in the tableau.
pub fn integer_rows(alloc: Global, rows: &Rows<Frac>) -> Result<Program, RowStop>
    ensures made { IfOk result (IsMade (given rows.now.kinds rows.now.rows rows.now.objective)) }
    ensures stops { IfErr result (IsStopOf (given rows.now.kinds rows.now.rows rows.now.objective)) }
{
    check_size(rows)?;
    let whole = whole_program(alloc, rows)?;
    assembled(alloc, rows, &whole)
}
