//! One pivot, where the limit allows it and it isn't wide.
ghost use Rattle.std.specs.Prelude.{◌≡◌, ◌≢◌, ◌+◌, ◌<◌, length, pos};
ghost use Rattle.std.specs.Bool.{OnTrue, OnFalse};
ghost use Rattle.dcx_tab.specs.Table.{entry_at, after_pivot};
ghost use Rattle.dcx_warm.specs.Install.{IsAllowed};

use dcx_tab::Tableau;

/// Pivots and counts, where the pivot is allowed after those that are counted, and tells whether it did.
pub(crate) fn step<T: Tableau>(
    tableau: &mut T,
    row: u32,
    column: u32,
    limit: u64,
    pivots: &mut u64,
) -> bool
    requires row { row + 2 < length (T.table tableau.old).rows }
    requires column { column < (T.table tableau.old).columns }
    requires some { entry_at (T.table tableau.old) row column ≢ pos 0 }
    ensures allowed { OnTrue result (IsAllowed limit (T.table tableau.old) pivots.old row column) }
    ensures done { OnTrue result (T.table tableau.new ≡ after_pivot row column (T.table tableau.old)) }
    ensures counted { OnTrue result (pivots.new ≡ pivots.old + 1) }
    ensures refused { OnFalse result (¬ (IsAllowed limit (T.table tableau.old) pivots.old row column)) }
{
    if *pivots >= limit {
        return false;
    }
    match tableau.pivot(row, column) {
        Ok(()) => {
            *pivots += 1;
            true
        }
        Err(_) => false,
    }
}
