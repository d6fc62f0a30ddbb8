//! Where a pivot forms too great a number.
ghost use Rattle.std.specs.Prelude.{◌≡◌, ◌≢◌, ℕ, ◌<◌, pos, IfSome, IfNone};
ghost use Rattle.dcx_tab.specs.Rows.{entry, AllSmall};
ghost use Rattle.dcx_tab.specs.Pivot.{turned, IsFormed, IsFormedAt, IsRowFormed, IsFirstWideAt, AllFormedAt};
ghost use Rattle.dcx_links.specs.Matrix.{row_of};
ghost use Rattle.dcx_chained.specs.NewRow.{Clears};
ghost use Rattle.dcx_chained.specs.Rows.{rows_of};

use crate::factors::factors_of;
use dcx_links::Links;
use dcx_tab::{Factors, WideAt, formed};

/// The first column at which the one factor times row `i` less the other times row `r` forms too great a number.
fn first_unformed(links: &Links, i: u32, r: u32, factors: Factors) -> Option<u32>
    requires row { i < links.now.height }
    requires pivot_row { r < links.now.height }
    ensures below { IfSome result (λ j. j < links.now.width) }
    ensures wide { IfSome result (λ j. ¬ (IsFormed factors.row (entry (row_of links.now i) j) factors.by (entry (row_of links.now r) j))) }
    ensures first { IfSome result (λ j. (k : ℕ) → k < j → IsFormed factors.row (entry (row_of links.now i) k) factors.by (entry (row_of links.now r) k)) }
    ensures none { IfNone result ((k : ℕ) → k < links.now.width → IsFormed factors.row (entry (row_of links.now i) k) factors.by (entry (row_of links.now r) k)) }
{
    let mut pairs = links.pairs(i, r);
    'columns: while let Some(pair) = pairs.next() {
        let Some(_) = formed(factors.row, pair.first, factors.by, pair.second) else {
            return Some(pair.at);
        };
    }
    None
}

/// The first column at which a pivot at row `r` is wide in row `i`, which it clears by these factors.
fn wide_in_row(links: &Links, i: u32, r: u32, column: u32, factors: Factors) -> Option<u32>
    requires row { i < links.now.height }
    requires pivot_row { r < links.now.height }
    requires factors { Clears column (row_of links.now r) (row_of links.now i) factors.row factors.by }
    ensures below { IfSome result (λ j. j < links.now.width) }
    ensures other { IfSome result (λ j. i ≢ r) }
    ensures wide { IfSome result (λ j. ¬ (IsFormedAt column (turned column (row_of links.now r)) (row_of links.now i) j)) }
    ensures first { IfSome result (λ j. (k : ℕ) → k < j → IsFormedAt column (turned column (row_of links.now r)) (row_of links.now i) k) }
    ensures none { IfNone result (i ≢ r → IsRowFormed column (turned column (row_of links.now r)) (row_of links.now i)) }
{
    if i == r {
        return None;
    }
    first_unformed(links, i, r, factors)
}

/// The first row and column at which a pivot at row `r` is wide.
pub(crate) fn first_wide(links: &Links, r: u32, column: u32) -> Option<WideAt>
    requires pivot_row { r < links.now.height }
    requires column { column < links.now.width }
    requires some { entry (row_of links.now r) column ≢ pos 0 }
    requires small { (k : ℕ) → k < links.now.height → AllSmall (row_of links.now k) }
    ensures found { IfSome result (λ at. IsFirstWideAt (turned column (row_of links.now r)) r column (rows_of links.now) at.row at.column) }
    ensures none { IfNone result (AllFormedAt (turned column (row_of links.now r)) r column (rows_of links.now)) }
{
    let pivot = links.get(r, column);
    let mut walk = links.column(column);
    'rows: while let Some(met) = walk.next() {
        let factors = factors_of(pivot, met.value);
        if let Some(j) = wide_in_row(links, met.at, r, column, factors) {
            return Some(WideAt {
                row: met.at,
                column: j,
            });
        }
    }
    None
}
