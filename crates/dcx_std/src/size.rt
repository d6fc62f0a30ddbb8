//! How many rows and columns the scaled program of rows has.
ghost use Rattle.std.specs.Prelude.{◌≡◌, ◌≤◌, ◌↔◌, sum_by, length, IsOk, IfErr};
ghost use Rattle.dcx_linear.specs.Size.{capped};
ghost use Rattle.dcx_std.specs.Size.{slacks_for, column_count};

use crate::stop::RowStop;
use dcx_frac::Frac;
use dcx_linear::{Row, RowKind, Rows, capped_length, unknown_columns};

/// The slacks of a row: one where it is an inequality.
fn slack(kind: RowKind) -> u32
    ensures { result ≡ slacks_for kind }
{
    match kind {
        RowKind::AtMost => 1,
        RowKind::Equal => 0,
    }
}

/// The slacks of the rows.
fn slack_columns(rows: &[Row<Frac>]) -> u32
    ensures { result ≡ capped (sum_by (λ r. slacks_for r.kind) rows.now) }
{
    let mut count = 0u32;
    'rows: for row in rows {
        count = count.saturating_add(slack(row.kind));
    }
    count
}

/// `TooLarge` exactly where the rows are over 600, or the columns of the unknowns and the slacks over 2,400.
pub fn check_size(rows: &Rows<Frac>) -> Result<(), RowStop>
    ensures fits { IsOk result ↔ ((length rows.now.rows ≤ 600) × (column_count rows.now.kinds rows.now.rows ≤ 2400)) }
    ensures told { IfErr result (λ e. e ≡ RowStop.TooLarge (capped (length rows.now.rows)) (capped (column_count rows.now.kinds rows.now.rows))) }
{
    let list = rows.rows.as_slice();
    let count = capped_length(list.len());
    let columns = unknown_columns(rows.kinds.as_slice()).saturating_add(slack_columns(list));
    if count > 600 || columns > 2400 {
        return Err(RowStop::TooLarge {
            rows: count,
            columns,
        });
    }
    Ok(())
}
