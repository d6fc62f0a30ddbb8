//! The first positive number of a row.
ghost use Rattle.std.specs.Prelude.{ℕ, ◌<◌, ◌≤◌, pos, ◌≤ℤ◌, ◌<ℤ◌, IfSome, IfNone};
ghost use Rattle.dcx_tab.specs.Rows.{entry};
ghost use Rattle.dcx_links.specs.Matrix.{row_of};

use dcx_links::Links;

/// The first of so many columns where the number of a row is positive.
pub(crate) fn first_positive(links: &Links, row: u32, columns: u32) -> Option<u32>
    requires row { row < links.now.height }
    requires columns { columns ≤ links.now.width }
    ensures below { IfSome result (λ c. c < columns) }
    ensures positive { IfSome result (λ c. pos 0 <ℤ entry (row_of links.now row) c) }
    ensures first { IfSome result (λ c. (k : ℕ) → k < c → entry (row_of links.now row) k ≤ℤ pos 0) }
    ensures none { IfNone result ((k : ℕ) → k < columns → entry (row_of links.now row) k ≤ℤ pos 0) }
{
    let mut walk = links.row(row);
    'numbers: while let Some(number) = walk.next() {
        if number.at >= columns {
            return None;
        }
        if number.value > 0 {
            return Some(number.at);
        }
    }
    None
}
