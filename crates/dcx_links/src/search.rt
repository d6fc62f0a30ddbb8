//! Where a place stands in the chain of its row and in that of its column.
ghost use Rattle.std.specs.Prelude.{◌≡◌, ℕ, ◌<◌, ◌≤◌, length, ◌+◌, true, false};
ghost use Rattle.dcx_links.specs.Lines.{none, IsFrom, AreLines, IsSpot, link_of};
ghost use Rattle.dcx_links.specs.Cells.{head_at, InRow, InColumn, IsAt, next_in_row_at, next_in_column_at, bound_in_row, bound_in_column};

use crate::store::{Cell, NONE};

/// A link, and the cell that it comes from, if not from a head.
#[derive(Clone, Copy)]
pub(crate) struct Spot {
    pub(crate) from: Option<u32>,
    pub(crate) link: u32,
}

/// Where a search along a row begins: at this cell, if it stands in the row and before the column, and else at the head.
pub(crate) fn row_start(cells: &[Cell], row: u32, column: u32, hint: u32) -> Option<u32>
    ensures from { IsFrom (InRow cells.now) row result (bound_in_row cells.now result) }
    ensures before { bound_in_row cells.now result ≤ column }
{
    if hint as usize >= cells.len() {
        return None;
    }
    let cell = cells[hint as usize];
    if cell.value != 0 && cell.row == row && cell.column < column {
        Some(hint)
    } else {
        None
    }
}

/// Where a search along a column begins: at this cell, if it stands in the column and before the row, and else at the head.
pub(crate) fn column_start(cells: &[Cell], row: u32, column: u32, hint: u32) -> Option<u32>
    ensures from { IsFrom (InColumn cells.now) column result (bound_in_column cells.now result) }
    ensures before { bound_in_column cells.now result ≤ row }
{
    if hint as usize >= cells.len() {
        return None;
    }
    let cell = cells[hint as usize];
    if cell.value != 0 && cell.column == column && cell.row < row {
        Some(hint)
    } else {
        None
    }
}

/// The link of a row that comes from a cell, or else from the head.
#[inline(always)]
pub(crate) fn row_link(cells: &[Cell], heads: &[u32], row: u32, from: Option<u32>) -> u32
    requires within { row < length heads.now }
    requires from { IsFrom (InRow cells.now) row from (bound_in_row cells.now from) }
    ensures { result ≡ link_of (head_at heads.now) (next_in_row_at cells.now) row from }
{
    match from {
        None => heads[row as usize],
        Some(i) => cells[i as usize].next_in_row,
    }
}

/// The first link of a row that leads to a column or beyond, on from one that doesn't.
#[inline(always)]
pub(crate) fn row_spot_on(cells: &[Cell], heads: &[u32], row: u32, column: u32, start: Spot) -> Spot
    requires lines { AreLines (InRow cells.now) (head_at heads.now) (next_in_row_at cells.now) }
    requires few { length cells.now ≤ none }
    requires from { IsFrom (InRow cells.now) row start.from (bound_in_row cells.now start.from) }
    requires before { bound_in_row cells.now start.from ≤ column }
    requires link { start.link ≡ link_of (head_at heads.now) (next_in_row_at cells.now) row start.from }
    ensures spot { IsSpot (InRow cells.now) row column result.from (bound_in_row cells.now result.from) result.link }
    ensures link { result.link ≡ link_of (head_at heads.now) (next_in_row_at cells.now) row result.from }
{
    let mut from = start.from;
    let mut link = start.link;
    while link != NONE {
        let cell = cells[link as usize];
        if column <= cell.column {
            return Spot { from, link };
        }
        from = Some(link);
        link = cell.next_in_row;
    }
    Spot { from, link }
}

/// The first link of a row that leads to a column or beyond, searched from a cell that stands before it, or else from the head.
pub(crate) fn row_spot_from(
    cells: &[Cell],
    heads: &[u32],
    row: u32,
    column: u32,
    start: Option<u32>,
) -> Spot
    requires lines { AreLines (InRow cells.now) (head_at heads.now) (next_in_row_at cells.now) }
    requires few { length cells.now ≤ none }
    requires within { row < length heads.now }
    requires from { IsFrom (InRow cells.now) row start (bound_in_row cells.now start) }
    requires before { bound_in_row cells.now start ≤ column }
    ensures spot { IsSpot (InRow cells.now) row column result.from (bound_in_row cells.now result.from) result.link }
    ensures link { result.link ≡ link_of (head_at heads.now) (next_in_row_at cells.now) row result.from }
{
    let link = row_link(cells, heads, row, start);
    row_spot_on(cells, heads, row, column, Spot { from: start, link })
}

/// The first link of a column that leads to a row or beyond, searched from a link that doesn't.
pub(crate) fn column_spot_from(
    cells: &[Cell],
    heads: &[u32],
    row: u32,
    column: u32,
    start: Option<u32>,
) -> Spot
    requires lines { AreLines (InColumn cells.now) (head_at heads.now) (next_in_column_at cells.now) }
    requires few { length cells.now ≤ none }
    requires within { column < length heads.now }
    requires from { IsFrom (InColumn cells.now) column start (bound_in_column cells.now start) }
    requires before { bound_in_column cells.now start ≤ row }
    ensures spot { IsSpot (InColumn cells.now) column row result.from (bound_in_column cells.now result.from) result.link }
    ensures link { result.link ≡ link_of (head_at heads.now) (next_in_column_at cells.now) column result.from }
{
    let mut from = start;
    let mut link = match start {
        None => heads[column as usize],
        Some(i) => cells[i as usize].next_in_column,
    };
    while link != NONE {
        let cell = cells[link as usize];
        if row <= cell.row {
            return Spot { from, link };
        }
        from = Some(link);
        link = cell.next_in_column;
    }
    Spot { from, link }
}

/// The first link of a row that leads to a column or beyond.
pub(crate) fn row_spot(cells: &[Cell], heads: &[u32], row: u32, column: u32, hint: u32) -> Spot
    requires lines { AreLines (InRow cells.now) (head_at heads.now) (next_in_row_at cells.now) }
    requires few { length cells.now ≤ none }
    requires within { row < length heads.now }
    ensures spot { IsSpot (InRow cells.now) row column result.from (bound_in_row cells.now result.from) result.link }
    ensures link { result.link ≡ link_of (head_at heads.now) (next_in_row_at cells.now) row result.from }
{
    let start = row_start(cells, row, column, hint);
    row_spot_from(cells, heads, row, column, start)
}

/// The first link of a column that leads to a row or beyond.
pub(crate) fn column_spot(cells: &[Cell], heads: &[u32], row: u32, column: u32, hint: u32) -> Spot
    requires lines { AreLines (InColumn cells.now) (head_at heads.now) (next_in_column_at cells.now) }
    requires few { length cells.now ≤ none }
    requires within { column < length heads.now }
    ensures spot { IsSpot (InColumn cells.now) column row result.from (bound_in_column cells.now result.from) result.link }
    ensures link { result.link ≡ link_of (head_at heads.now) (next_in_column_at cells.now) column result.from }
{
    let start = column_start(cells, row, column, hint);
    column_spot_from(cells, heads, row, column, start)
}

/// Whether the spot's link leads to the place.
pub(crate) fn is_there(cells: &[Cell], row: u32, column: u32, in_row: Spot) -> bool
    requires few { length cells.now ≤ none }
    requires in_row { IsSpot (InRow cells.now) row column in_row.from (bound_in_row cells.now in_row.from) in_row.link }
    requires apart { (i j r c : ℕ) → IsAt cells.now i r c → IsAt cells.now j r c → i ≡ j }
    ensures yes { result ≡ true → IsAt cells.now in_row.link row column }
    ensures no { result ≡ false → (i : ℕ) → ¬ IsAt cells.now i row column }
{
    if in_row.link == NONE {
        return false;
    }
    cells[in_row.link as usize].column == column
}
