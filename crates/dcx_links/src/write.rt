//! Numbers put at places, and taken from them.
ghost use Rattle.std.specs.Prelude.{◌≡◌, ◌≢◌, ℕ, ◌+◌, ◌<◌, ◌≤◌, ◌^◌, length, pos, ◌-ℤ◌, unsigned_abs, IfSome, vec_capacity};
ghost use Rattle.dcx_links.specs.Lines.{none, IsFrom, IsSpot, link_of};
ghost use Rattle.dcx_links.specs.Cells.{head_at, InRow, InColumn, IsAt, next_in_row_at, next_in_column_at, bound_in_row, bound_in_column, number_in};
ghost use Rattle.dcx_links.specs.Cells.{with_next_in_row, with_next_in_column, with_head, IsSound};

use crate::number::number_at_spot;
use crate::reserve::make_free;
use crate::search::{Spot, column_spot, is_there, row_link, row_spot};
use crate::store::{Cell, NONE, Store};

/// Makes the link of a row that comes from a cell, or else from the head, lead to another cell.
fn link_row(cells: &mut Vec<Cell>, heads: &mut Vec<u32>, row: u32, from: Option<u32>, to: u32)
    requires within { row < length heads.old.items }
    requires from { IfSome from (λ i. i < length cells.old.items) }
    ensures cells { cells.new.items ≡ with_next_in_row cells.old.items from to }
    ensures room { vec_capacity cells.new ≡ vec_capacity cells.old }
    ensures heads { heads.new.items ≡ with_head heads.old.items row from to }
{
    match from {
        None => heads[row as usize] = to,
        Some(i) => cells[i as usize].next_in_row = to,
    }
}

/// Makes the link of a column that comes from a cell, or else from the head, lead to another cell.
fn link_column(cells: &mut Vec<Cell>, heads: &mut Vec<u32>, column: u32, from: Option<u32>, to: u32)
    requires within { column < length heads.old.items }
    requires from { IfSome from (λ i. i < length cells.old.items) }
    ensures cells { cells.new.items ≡ with_next_in_column cells.old.items from to }
    ensures room { vec_capacity cells.new ≡ vec_capacity cells.old }
    ensures heads { heads.new.items ≡ with_head heads.old.items column from to }
{
    match from {
        None => heads[column as usize] = to,
        Some(i) => cells[i as usize].next_in_column = to,
    }
}

/// Puts a number other than 0 at a place that has none, behind links that were found before. Answers its cell.
#[inline(always)]
fn insert_at(
    store: &mut Store,
    row: u32,
    column: u32,
    value: i128,
    in_row: Spot,
    in_column: Spot,
) -> u32
    requires sound { IsSound store.old }
    requires ready { store.old.free ≡ none → vec_capacity store.old.cells ≤ length store.old.cells.items }
    requires row { row < length store.old.row_heads.items }
    requires column { column < length store.old.column_heads.items }
    requires number { value ≢ pos 0 }
    requires empty { (i : ℕ) → ¬ IsAt store.old.cells.items i row column }
    requires in_row { IsSpot (InRow store.old.cells.items) row column in_row.from (bound_in_row store.old.cells.items in_row.from) in_row.link }
    requires row_link { in_row.link ≡ link_of (head_at store.old.row_heads.items) (next_in_row_at store.old.cells.items) row in_row.from }
    requires in_column { IsSpot (InColumn store.old.cells.items) column row in_column.from (bound_in_column store.old.cells.items in_column.from) in_column.link }
    requires column_link { in_column.link ≡ link_of (head_at store.old.column_heads.items) (next_in_column_at store.old.cells.items) column in_column.from }
    ensures here { IsAt store.new.cells.items result row column }
    ensures sound { IsSound store.new }
    ensures rows { length store.new.row_heads.items ≡ length store.old.row_heads.items }
    ensures columns { length store.new.column_heads.items ≡ length store.old.column_heads.items }
    ensures there { number_in store.new row column ≡ value }
    ensures same { (r c : ℕ) → ¬ ((r ≡ row) × (c ≡ column)) → number_in store.new r c ≡ number_in store.old r c }
{
    let free = store.free;
    store.free = store.cells[free as usize].next_in_row;
    store.cells[free as usize] = Cell {
        value,
        row,
        column,
        next_in_row: in_row.link,
        next_in_column: in_column.link,
    };
    link_row(
        &mut store.cells,
        &mut store.row_heads,
        row,
        in_row.from,
        free,
    );
    link_column(
        &mut store.cells,
        &mut store.column_heads,
        column,
        in_column.from,
        free,
    );
    free
}

/// Takes the number from a place that has one, behind links that were found before.
#[inline(always)]
fn remove_at(store: &mut Store, row: u32, column: u32, in_row: Spot, in_column: Spot)
    requires sound { IsSound store.old }
    requires row { row < length store.old.row_heads.items }
    requires column { column < length store.old.column_heads.items }
    requires there { number_in store.old row column ≢ pos 0 }
    requires in_row { IsSpot (InRow store.old.cells.items) row column in_row.from (bound_in_row store.old.cells.items in_row.from) in_row.link }
    requires row_link { in_row.link ≡ link_of (head_at store.old.row_heads.items) (next_in_row_at store.old.cells.items) row in_row.from }
    requires in_column { IsSpot (InColumn store.old.cells.items) column row in_column.from (bound_in_column store.old.cells.items in_column.from) in_column.link }
    requires column_link { in_column.link ≡ link_of (head_at store.old.column_heads.items) (next_in_column_at store.old.cells.items) column in_column.from }
    ensures kept { (i r c : ℕ) → IsAt store.old.cells.items i r c → ¬ ((r ≡ row) × (c ≡ column)) → IsAt store.new.cells.items i r c }
    ensures free { store.new.free ≢ none }
    ensures sound { IsSound store.new }
    ensures rows { length store.new.row_heads.items ≡ length store.old.row_heads.items }
    ensures columns { length store.new.column_heads.items ≡ length store.old.column_heads.items }
    ensures there { number_in store.new row column ≡ pos 0 }
    ensures same { (r c : ℕ) → ¬ ((r ≡ row) × (c ≡ column)) → number_in store.new r c ≡ number_in store.old r c }
{
    let at = in_row.link;
    let cell = store.cells[at as usize];
    link_row(
        &mut store.cells,
        &mut store.row_heads,
        row,
        in_row.from,
        cell.next_in_row,
    );
    link_column(
        &mut store.cells,
        &mut store.column_heads,
        column,
        in_column.from,
        cell.next_in_column,
    );
    store.cells[at as usize] = Cell {
        value: 0,
        row,
        column,
        next_in_row: store.free,
        next_in_column: NONE,
    };
    store.free = at;
}

/// Puts another number in the place of one, none of both 0.
pub(crate) fn change_at(store: &mut Store, at: u32, row: u32, column: u32, value: i128)
    requires sound { IsSound store.old }
    requires number { value ≢ pos 0 }
    requires here { IsAt store.old.cells.items at row column }
    ensures free { store.new.free ≡ store.old.free }
    ensures count { length store.new.cells.items ≡ length store.old.cells.items }
    ensures room { vec_capacity store.new.cells ≡ vec_capacity store.old.cells }
    ensures here { IsAt store.new.cells.items at row column }
    ensures sound { IsSound store.new }
    ensures rows { length store.new.row_heads.items ≡ length store.old.row_heads.items }
    ensures columns { length store.new.column_heads.items ≡ length store.old.column_heads.items }
    ensures there { number_in store.new row column ≡ value }
    ensures same { (r c : ℕ) → ¬ ((r ≡ row) × (c ≡ column)) → number_in store.new r c ≡ number_in store.old r c }
{
    store.cells[at as usize].value = value;
}

/// Cells from which the places of a row and of a column are looked for, if they stand before them.
#[derive(Clone, Copy)]
pub(crate) struct Near {
    pub(crate) in_row: u32,
    pub(crate) in_column: u32,
}

/// Where a walk along a row goes on behind a place, and a cell from which the column of the place is looked through next.
#[derive(Clone, Copy)]
pub(crate) struct Passed {
    pub(crate) spot: Spot,
    pub(crate) near: u32,
}

/// Where a walk along a row goes on behind a cell.
#[inline(always)]
fn behind(store: &Store, row: u32, column: u32, at: u32) -> Passed
    requires row { row < length store.now.row_heads.items }
    requires here { IsAt store.now.cells.items at row column }
    ensures from { IsFrom (InRow store.now.cells.items) row result.spot.from (bound_in_row store.now.cells.items result.spot.from) }
    ensures within { bound_in_row store.now.cells.items result.spot.from ≤ column + 1 }
    ensures link { result.spot.link ≡ link_of (head_at store.now.row_heads.items) (next_in_row_at store.now.cells.items) row result.spot.from }
{
    let from = Some(at);
    let link = row_link(&store.cells, &store.row_heads, row, from);
    Passed {
        spot: Spot { from, link },
        near: at,
    }
}

/// Puts a number other than 0 at a place that has none.
#[inline(always)]
fn put_in(store: &mut Store, row: u32, column: u32, value: i128, in_row: Spot, near: u32) -> Passed
    requires sound { IsSound store.old }
    requires ready { store.old.free ≡ none → vec_capacity store.old.cells ≤ length store.old.cells.items }
    requires row { row < length store.old.row_heads.items }
    requires column { column < length store.old.column_heads.items }
    requires number { value ≢ pos 0 }
    requires empty { (i : ℕ) → ¬ IsAt store.old.cells.items i row column }
    requires in_row { IsSpot (InRow store.old.cells.items) row column in_row.from (bound_in_row store.old.cells.items in_row.from) in_row.link }
    requires row_link { in_row.link ≡ link_of (head_at store.old.row_heads.items) (next_in_row_at store.old.cells.items) row in_row.from }
    ensures from { IsFrom (InRow store.new.cells.items) row result.spot.from (bound_in_row store.new.cells.items result.spot.from) }
    ensures within { bound_in_row store.new.cells.items result.spot.from ≤ column + 1 }
    ensures link { result.spot.link ≡ link_of (head_at store.new.row_heads.items) (next_in_row_at store.new.cells.items) row result.spot.from }
    ensures ready { store.new.free ≡ none → vec_capacity store.new.cells ≤ length store.new.cells.items }
    ensures sound { IsSound store.new }
    ensures rows { length store.new.row_heads.items ≡ length store.old.row_heads.items }
    ensures columns { length store.new.column_heads.items ≡ length store.old.column_heads.items }
    ensures there { number_in store.new row column ≡ value }
    ensures same { (r c : ℕ) → ¬ ((r ≡ row) × (c ≡ column)) → number_in store.new r c ≡ number_in store.old r c }
{
    let in_column = column_spot(&store.cells, &store.column_heads, row, column, near);
    let cell = insert_at(store, row, column, value, in_row, in_column);
    make_free(store);
    behind(store, row, column, cell)
}

/// Takes the number from a place that has one.
#[inline(always)]
fn take_out(store: &mut Store, row: u32, column: u32, in_row: Spot, near: u32) -> Passed
    requires sound { IsSound store.old }
    requires row { row < length store.old.row_heads.items }
    requires column { column < length store.old.column_heads.items }
    requires there { number_in store.old row column ≢ pos 0 }
    requires in_row { IsSpot (InRow store.old.cells.items) row column in_row.from (bound_in_row store.old.cells.items in_row.from) in_row.link }
    requires row_link { in_row.link ≡ link_of (head_at store.old.row_heads.items) (next_in_row_at store.old.cells.items) row in_row.from }
    ensures from { IsFrom (InRow store.new.cells.items) row result.spot.from (bound_in_row store.new.cells.items result.spot.from) }
    ensures within { bound_in_row store.new.cells.items result.spot.from ≤ column + 1 }
    ensures link { result.spot.link ≡ link_of (head_at store.new.row_heads.items) (next_in_row_at store.new.cells.items) row result.spot.from }
    ensures ready { store.new.free ≡ none → vec_capacity store.new.cells ≤ length store.new.cells.items }
    ensures sound { IsSound store.new }
    ensures rows { length store.new.row_heads.items ≡ length store.old.row_heads.items }
    ensures columns { length store.new.column_heads.items ≡ length store.old.column_heads.items }
    ensures there { number_in store.new row column ≡ pos 0 }
    ensures same { (r c : ℕ) → ¬ ((r ≡ row) × (c ≡ column)) → number_in store.new r c ≡ number_in store.old r c }
{
    let in_column = column_spot(&store.cells, &store.column_heads, row, column, near);
    remove_at(store, row, column, in_row, in_column);
    let from = in_row.from;
    let link = row_link(&store.cells, &store.row_heads, row, from);
    Passed {
        spot: Spot { from, link },
        near: in_column.from.unwrap_or(NONE),
    }
}

/// Puts a number at a place whose spot was found before, and makes a cell free for the next one. The column is searched only where a cell
/// comes to it or leaves it.
#[inline(always)]
fn put_at(store: &mut Store, row: u32, column: u32, value: i128, in_row: Spot, near: u32) -> Passed
    requires sound { IsSound store.old }
    requires ready { store.old.free ≡ none → vec_capacity store.old.cells ≤ length store.old.cells.items }
    requires row { row < length store.old.row_heads.items }
    requires column { column < length store.old.column_heads.items }
    requires in_row { IsSpot (InRow store.old.cells.items) row column in_row.from (bound_in_row store.old.cells.items in_row.from) in_row.link }
    requires row_link { in_row.link ≡ link_of (head_at store.old.row_heads.items) (next_in_row_at store.old.cells.items) row in_row.from }
    ensures from { IsFrom (InRow store.new.cells.items) row result.spot.from (bound_in_row store.new.cells.items result.spot.from) }
    ensures within { bound_in_row store.new.cells.items result.spot.from ≤ column + 1 }
    ensures link { result.spot.link ≡ link_of (head_at store.new.row_heads.items) (next_in_row_at store.new.cells.items) row result.spot.from }
    ensures ready { store.new.free ≡ none → vec_capacity store.new.cells ≤ length store.new.cells.items }
    ensures sound { IsSound store.new }
    ensures rows { length store.new.row_heads.items ≡ length store.old.row_heads.items }
    ensures columns { length store.new.column_heads.items ≡ length store.old.column_heads.items }
    ensures there { number_in store.new row column ≡ value }
    ensures same { (r c : ℕ) → ¬ ((r ≡ row) × (c ≡ column)) → number_in store.new r c ≡ number_in store.old r c }
{
    if is_there(&store.cells, row, column, in_row) {
        if value == 0 {
            return take_out(store, row, column, in_row, near);
        }
        change_at(store, in_row.link, row, column, value);
        return behind(store, row, column, in_row.link);
    }
    if value == 0 {
        return Passed { spot: in_row, near };
    }
    put_in(store, row, column, value, in_row, near)
}

/// Puts a number at a place.
pub(crate) fn put(store: &mut Store, row: u32, column: u32, value: i128, near: Near) -> Near
    requires sound { IsSound store.old }
    requires row { row < length store.old.row_heads.items }
    requires column { column < length store.old.column_heads.items }
    ensures sound { IsSound store.new }
    ensures rows { length store.new.row_heads.items ≡ length store.old.row_heads.items }
    ensures columns { length store.new.column_heads.items ≡ length store.old.column_heads.items }
    ensures there { number_in store.new row column ≡ value }
    ensures same { (r c : ℕ) → ¬ ((r ≡ row) × (c ≡ column)) → number_in store.new r c ≡ number_in store.old r c }
{
    make_free(store);
    let in_row = row_spot(&store.cells, &store.row_heads, row, column, near.in_row);
    let passed = put_at(store, row, column, value, in_row, near.in_column);
    Near {
        in_row: passed.spot.from.unwrap_or(NONE),
        in_column: passed.near,
    }
}

/// Takes a number from that at a place whose spot was found before.
#[inline(always)]
pub(crate) fn lessen(
    store: &mut Store,
    row: u32,
    column: u32,
    by: i128,
    in_row: Spot,
    near: u32,
) -> Passed
    requires sound { IsSound store.old }
    requires ready { store.old.free ≡ none → vec_capacity store.old.cells ≤ length store.old.cells.items }
    requires row { row < length store.old.row_heads.items }
    requires column { column < length store.old.column_heads.items }
    requires in_row { IsSpot (InRow store.old.cells.items) row column in_row.from (bound_in_row store.old.cells.items in_row.from) in_row.link }
    requires row_link { in_row.link ≡ link_of (head_at store.old.row_heads.items) (next_in_row_at store.old.cells.items) row in_row.from }
    requires fits { unsigned_abs (number_in store.old row column -ℤ by) < 2 ^ 127 }
    ensures from { IsFrom (InRow store.new.cells.items) row result.spot.from (bound_in_row store.new.cells.items result.spot.from) }
    ensures within { bound_in_row store.new.cells.items result.spot.from ≤ column + 1 }
    ensures link { result.spot.link ≡ link_of (head_at store.new.row_heads.items) (next_in_row_at store.new.cells.items) row result.spot.from }
    ensures ready { store.new.free ≡ none → vec_capacity store.new.cells ≤ length store.new.cells.items }
    ensures sound { IsSound store.new }
    ensures rows { length store.new.row_heads.items ≡ length store.old.row_heads.items }
    ensures columns { length store.new.column_heads.items ≡ length store.old.column_heads.items }
    ensures there { number_in store.new row column ≡ number_in store.old row column -ℤ by }
    ensures same { (r c : ℕ) → ¬ ((r ≡ row) × (c ≡ column)) → number_in store.new r c ≡ number_in store.old r c }
{
    let number = number_at_spot(store, row, column, in_row);
    put_at(store, row, column, number - by, in_row, near)
}
