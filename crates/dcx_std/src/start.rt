//! How a row of a scaled program starts: with its slack basic, or with an artificial.
ghost use Rattle.std.specs.Prelude.{◌≡◌};
ghost use Rattle.dcx_std.specs.Columns.{has_slack, needs_artificial, start_column};

use dcx_linear::RowKind;
use dcx_tab::ColumnKind;

/// How a row starts.
#[derive(Clone, Copy)]
pub(crate) struct Start {
    /// How the row's form stood to 0.
    pub(crate) kind: RowKind,
    /// Whether the row was negated, since its right side was below 0.
    pub(crate) negated: bool,
}

/// Whether the row has a slack: whether it is an inequality.
pub(crate) fn is_slack_there(start: Start) -> bool
    ensures { result ≡ has_slack start }
{
    match start.kind {
        RowKind::AtMost => true,
        RowKind::Equal => false,
    }
}

/// Whether the row starts with an artificial: whether it was negated or is an equality.
pub(crate) fn is_artificial_there(start: Start) -> bool
    ensures { result ≡ needs_artificial start }
{
    start.negated || !is_slack_there(start)
}

/// The column that is basic at first in the row with this index.
pub(crate) fn first_column(index: u32, start: Start) -> ColumnKind
    ensures { result ≡ start_column index start }
{
    if is_artificial_there(start) {
        ColumnKind::Artificial { row: index }
    } else {
        ColumnKind::Slack { row: index }
    }
}
