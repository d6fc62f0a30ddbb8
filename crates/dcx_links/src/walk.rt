//! Walks along a row or a column.
ghost use Rattle.std.specs.Prelude.{◌-◌, length};
ghost use Rattle.std.specs.Iterator.{at_most};
ghost use Rattle.dcx_links.specs.Walks.{Steps};

use crate::store::{NONE, Store};
use std::marker::Model;

/// A number other than 0, and its place in the line.
#[derive(Clone, Copy)]
pub struct Entry {
    /// In a row the column, in a column the row.
    pub at: u32,
    /// The number.
    pub value: i128,
}

/// The numbers of a row other than 0, by rising columns.
#[derive(Drop)]
pub struct RowWalk<'a> {
    pub(crate) store: &'a Store,
    pub(crate) row: u32,
    pub(crate) from: usize,
    pub(crate) link: u32,
}

impl<'a> Model for RowWalk<'a> {
    ghost use Rattle.dcx_links.specs.Walks.{Walk};

    ghost Value = { Walk };

    ghost use Rattle.dcx_links.specs.Lines.{IsNext};
    ghost use Rattle.dcx_links.specs.Cells.{InRow, IsSound};
    ghost use Rattle.dcx_links.specs.Views.{row_in};

    ghost view = { λ w. record { numbers = row_in w.store.now w.row; from = w.from } };

    ghost invariant = { λ w. IsSound w.store.now × IsNext (InRow w.store.now.cells.items) w.row w.from w.link };
}

impl<'a> Iterator for RowWalk<'a> {
    type Item = Entry;

    ghost next_gives = { Steps };

    ghost remaining = { λ w. at_most (length w.numbers - w.from) };

    fn next(&mut self) -> Option<Entry> {
        if self.link == NONE {
            return None;
        }
        let cell = self.store.cells[self.link as usize];
        self.link = cell.next_in_row;
        self.from = cell.column as usize + 1;
        Some(Entry {
            at: cell.column,
            value: cell.value,
        })
    }
}

/// The numbers of a column other than 0, by rising rows.
#[derive(Drop)]
pub struct ColumnWalk<'a> {
    pub(crate) store: &'a Store,
    pub(crate) column: u32,
    pub(crate) from: usize,
    pub(crate) link: u32,
}

impl<'a> Model for ColumnWalk<'a> {
    ghost use Rattle.dcx_links.specs.Walks.{Walk};

    ghost Value = { Walk };

    ghost use Rattle.dcx_links.specs.Lines.{IsNext};
    ghost use Rattle.dcx_links.specs.Cells.{InColumn, IsSound};
    ghost use Rattle.dcx_links.specs.Views.{column_in};

    ghost view = { λ w. record { numbers = column_in w.store.now w.column; from = w.from } };

    ghost invariant = { λ w. IsSound w.store.now × IsNext (InColumn w.store.now.cells.items) w.column w.from w.link };
}

impl<'a> Iterator for ColumnWalk<'a> {
    type Item = Entry;

    ghost next_gives = { Steps };

    ghost remaining = { λ w. at_most (length w.numbers - w.from) };

    fn next(&mut self) -> Option<Entry> {
        if self.link == NONE {
            return None;
        }
        let cell = self.store.cells[self.link as usize];
        self.link = cell.next_in_column;
        self.from = cell.row as usize + 1;
        Some(Entry {
            at: cell.row,
            value: cell.value,
        })
    }
}
