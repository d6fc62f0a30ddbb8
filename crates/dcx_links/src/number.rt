//! The number at a place.
ghost use Rattle.std.specs.Prelude.{◌≡◌, ◌<◌, ◌≤◌, length};
ghost use Rattle.dcx_links.specs.Lines.{IsFrom, IsSpot};
ghost use Rattle.dcx_links.specs.Cells.{InRow, InColumn, bound_in_row, bound_in_column, number_in, IsSound};

use crate::search::{Spot, column_spot_from, column_start, row_spot_from, row_start};
use crate::store::{NONE, Store};
use std::cell::Cell;

/// The number at a place whose spot in its row was found before.
pub(crate) fn number_at_spot(store: &Store, row: u32, column: u32, spot: Spot) -> i128
    requires sound { IsSound store.now }
    requires spot { IsSpot (InRow store.now.cells.items) row column spot.from (bound_in_row store.now.cells.items spot.from) spot.link }
    ensures { result ≡ number_in store.now row column }
{
    if spot.link == NONE {
        return 0;
    }
    let cell = store.cells[spot.link as usize];
    if cell.column == column { cell.value } else { 0 }
}

/// The number at a place whose spot in its column was found before.
fn number_below_spot(store: &Store, row: u32, column: u32, spot: Spot) -> i128
    requires sound { IsSound store.now }
    requires spot { IsSpot (InColumn store.now.cells.items) column row spot.from (bound_in_column store.now.cells.items spot.from) spot.link }
    ensures { result ≡ number_in store.now row column }
{
    if spot.link == NONE {
        return 0;
    }
    let cell = store.cells[spot.link as usize];
    if cell.row == row { cell.value } else { 0 }
}

/// Cells from which a number is looked for, if they stand before its place: one in its row, one in its column.
#[derive(Drop)]
pub(crate) struct Seen {
    pub(crate) in_row: Cell<u32>,
    pub(crate) in_column: Cell<u32>,
}

/// The number at a place, looked for along its row. The cell before the place is then the one that was seen last in a row, and the one at
/// the place, if there is one, in a column.
fn number_along(store: &Store, row: u32, column: u32, start: Option<u32>, seen: &Seen) -> i128
    requires sound { IsSound store.now }
    requires row { row < length store.now.row_heads.items }
    requires from { IsFrom (InRow store.now.cells.items) row start (bound_in_row store.now.cells.items start) }
    requires before { bound_in_row store.now.cells.items start ≤ column }
    ensures { result ≡ number_in store.now row column }
{
    let spot = row_spot_from(&store.cells, &store.row_heads, row, column, start);
    let number = number_at_spot(store, row, column, spot);
    seen.in_row.set(spot.from.unwrap_or(NONE));
    if number != 0 {
        seen.in_column.set(spot.link);
    }
    number
}

/// The number at a place, looked for down its column. The cell before the place is then the one that was seen last in a column, and the one
/// at the place, if there is one, in a row.
fn number_down(store: &Store, row: u32, column: u32, start: Option<u32>, seen: &Seen) -> i128
    requires sound { IsSound store.now }
    requires column { column < length store.now.column_heads.items }
    requires from { IsFrom (InColumn store.now.cells.items) column start (bound_in_column store.now.cells.items start) }
    requires before { bound_in_column store.now.cells.items start ≤ row }
    ensures { result ≡ number_in store.now row column }
{
    let spot = column_spot_from(&store.cells, &store.column_heads, row, column, start);
    let number = number_below_spot(store, row, column, spot);
    seen.in_column.set(spot.from.unwrap_or(NONE));
    if number != 0 {
        seen.in_row.set(spot.link);
    }
    number
}

/// The number at a place, looked for from a cell that was seen last: in its row, if that stands before it, and else in its column, and else
/// from the head of its row.
pub(crate) fn number_near(store: &Store, row: u32, column: u32, seen: &Seen) -> i128
    requires sound { IsSound store.now }
    requires row { row < length store.now.row_heads.items }
    requires column { column < length store.now.column_heads.items }
    ensures { result ≡ number_in store.now row column }
{
    let in_row = row_start(&store.cells, row, column, seen.in_row.get());
    if in_row.is_none() {
        let in_column = column_start(&store.cells, row, column, seen.in_column.get());
        if in_column.is_some() {
            return number_down(store, row, column, in_column, seen);
        }
    }
    number_along(store, row, column, in_row, seen)
}
