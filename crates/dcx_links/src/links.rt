//! The matrix.
ghost use Rattle.std.specs.Prelude.{◌≡◌, ◌≢◌, ℕ, ◌<◌, ◌≤◌, ◌^◌, length, pos, ◌-ℤ◌, ◌*ℤ◌, ◌<ℤ◌, unsigned_abs, IfOk};
ghost use Prim.Native.Nat.{◌∣◌};
ghost use Rattle.dcx_math.specs.Divisors.{divided};
ghost use Rattle.dcx_links.specs.Matrix.{number_at, row_of, column_of};
ghost use Rattle.dcx_links.specs.Entries.{column_at, value_at};

use crate::multiple::lessen_by;
use crate::number::{Seen, number_near};
use crate::pair::{Ahead, PairWalk};
use crate::reserve::{make_heads, store_of};
use crate::rewrite::{divide_row, multiply_row};
use crate::store::{NONE, Store};
use crate::walk::{ColumnWalk, Entry, RowWalk};
use crate::write::{Near, put};
use std::alloc::{AllocError, Global};
use std::cell::Cell;
use std::marker::Model;

/// A sparse matrix. Its memory is taken once, for a number at each place.
#[derive(Drop)]
pub struct Links {
    store: Store,
    near_rows: Vec<u32>,
    near_columns: Vec<u32>,
    seen: Seen,
}

impl Model for Links {
    ghost use Rattle.dcx_links.specs.Matrix.{Matrix};

    ghost Value = { Matrix };

    ghost use Rattle.dcx_links.specs.Views.{matrix_of, AreLinked};

    ghost view = { λ l. matrix_of l.store };

    ghost invariant = { λ l. AreLinked l.store l.near_rows.items l.near_columns.items };
}

impl Links {
    /// A matrix of zeros, with the memory for a number at each place. No other call takes memory.
    ///
    /// A matrix of 2^32 - 1 places or more is refused as one for which there is no memory.
    pub fn reserve(alloc: Global, rows: u32, columns: u32) -> Result<Links, AllocError>
        ensures height { IfOk result (λ l. l.height ≡ rows) }
        ensures width { IfOk result (λ l. l.width ≡ columns) }
        ensures zeros { IfOk result (λ l. (r c : ℕ) → number_at l r c ≡ pos 0) }
    {
        let store = store_of(alloc, rows, columns)?;
        let near_rows = make_heads(alloc, rows)?;
        let near_columns = make_heads(alloc, columns)?;
        Ok(Links {
            store,
            near_rows,
            near_columns,
            seen: Seen {
                in_row: Cell::new(NONE),
                in_column: Cell::new(NONE),
            },
        })
    }

    /// The number at a place.
    pub fn get(&self, row: u32, column: u32) -> i128
        requires row { row < self.now.height }
        requires column { column < self.now.width }
        ensures { result ≡ number_at self.now row column }
    {
        number_near(&self.store, row, column, &self.seen)
    }

    /// Puts a number at a place. At 0 the cell of the place is free again, and another number takes a cell, which is always there.
    pub fn set(&mut self, row: u32, column: u32, value: i128)
        requires row { row < self.old.height }
        requires column { column < self.old.width }
        ensures there { number_at self.new row column ≡ value }
        ensures same { (r c : ℕ) → ¬ ((r ≡ row) × (c ≡ column)) → number_at self.new r c ≡ number_at self.old r c }
        ensures height { self.new.height ≡ self.old.height }
        ensures width { self.new.width ≡ self.old.width }
    {
        let start = Near {
            in_row: self.near_rows[row as usize],
            in_column: self.near_columns[column as usize],
        };
        let near = put(&mut self.store, row, column, value, start);
        self.near_rows[row as usize] = near.in_row;
        self.near_columns[column as usize] = near.in_column;
    }

    /// Takes a multiple of the first entries of a list, whose columns rise, from the numbers of a row.
    pub fn subtract(&mut self, row: u32, by: i128, entries: &[Entry], count: usize)
        requires row { row < self.old.height }
        requires count { count ≤ length entries.now }
        requires within { (k : ℕ) → k < count → column_at entries.now k < self.old.width }
        requires rising { (j k : ℕ) → j < k → k < count → column_at entries.now j < column_at entries.now k }
        requires product { (k : ℕ) → k < count → unsigned_abs (by *ℤ value_at entries.now k) < 2 ^ 127 }
        requires fits { (k : ℕ) → k < count → unsigned_abs (number_at self.old row (column_at entries.now k) -ℤ by *ℤ value_at entries.now k) < 2 ^ 127 }
        ensures there { (k : ℕ) → k < count → number_at self.new row (column_at entries.now k) ≡ number_at self.old row (column_at entries.now k) -ℤ by *ℤ value_at entries.now k }
        ensures same { (r c : ℕ) → (r ≡ row → (k : ℕ) → k < count → c ≢ column_at entries.now k) → number_at self.new r c ≡ number_at self.old r c }
        ensures height { self.new.height ≡ self.old.height }
        ensures width { self.new.width ≡ self.old.width }
    {
        lessen_by(
            &mut self.store,
            &mut self.near_columns,
            row,
            by,
            entries,
            count,
        );
    }

    /// Multiplies the numbers of a row by a factor other than 0.
    pub fn multiply(&mut self, row: u32, by: i128)
        requires row { row < self.old.height }
        requires some { by ≢ pos 0 }
        requires fits { (c : ℕ) → c < self.old.width → unsigned_abs (by *ℤ number_at self.old row c) < 2 ^ 127 }
        ensures there { (c : ℕ) → number_at self.new row c ≡ by *ℤ number_at self.old row c }
        ensures same { (r c : ℕ) → r ≢ row → number_at self.new r c ≡ number_at self.old r c }
        ensures height { self.new.height ≡ self.old.height }
        ensures width { self.new.width ≡ self.old.width }
    {
        multiply_row(&mut self.store, row, by);
    }

    /// Divides the numbers of a row by a common divisor.
    pub fn divide(&mut self, row: u32, by: i128)
        requires row { row < self.old.height }
        requires positive { pos 0 <ℤ by }
        requires divides { (c : ℕ) → c < self.old.width → unsigned_abs by ∣ unsigned_abs (number_at self.old row c) }
        ensures there { (c : ℕ) → number_at self.new row c ≡ divided (unsigned_abs by) (number_at self.old row c) }
        ensures same { (r c : ℕ) → r ≢ row → number_at self.new r c ≡ number_at self.old r c }
        ensures height { self.new.height ≡ self.old.height }
        ensures width { self.new.width ≡ self.old.width }
    {
        divide_row(&mut self.store, row, by);
    }

    /// The numbers of a row other than 0, by rising columns.
    pub fn row(&self, row: u32) -> RowWalk<'_>
        requires { row < self.now.height }
        ensures { result ≡ record { numbers = row_of self.now row; from = 0 } }
    {
        RowWalk {
            store: &self.store,
            row,
            from: 0,
            link: self.store.row_heads[row as usize],
        }
    }

    /// The numbers of a column other than 0, by rising rows.
    pub fn column(&self, column: u32) -> ColumnWalk<'_>
        requires { column < self.now.width }
        ensures { result ≡ record { numbers = column_of self.now column; from = 0 } }
    {
        ColumnWalk {
            store: &self.store,
            column,
            from: 0,
            link: self.store.column_heads[column as usize],
        }
    }

    /// What two rows have in the columns where one of them has a number other than 0, by rising columns.
    pub fn pairs(&self, first: u32, second: u32) -> PairWalk<'_>
        requires first { first < self.now.height }
        requires second { second < self.now.height }
        ensures { result ≡ record { first = row_of self.now first; second = row_of self.now second; from = 0 } }
    {
        PairWalk {
            first: Ahead::begin(self.row(first)),
            second: Ahead::begin(self.row(second)),
        }
    }
}
