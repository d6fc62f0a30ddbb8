//! A tableau in linked cells.
ghost use Rattle.std.specs.Prelude.{◌≡◌, ◌≢◌, ℕ, ◌+◌, ◌<◌, ◌≤◌, ◌^◌, length, pos, true, IfSome, IfNone};
ghost use Rattle.dcx_tab.specs.Rows.{entry, AllSmall};
ghost use Rattle.dcx_tab.specs.Pivot.{turned, IsFirstWideAt, AllFormedAt};
ghost use Rattle.dcx_links.specs.Matrix.{row_of};
ghost use Rattle.dcx_chained.specs.Rows.{rows_of};
ghost use Rattle.dcx_chained.specs.Narrow.{AreSized};

use crate::build::{put_line, put_rows};
use crate::clear::{clear_rows, turn_row};
use crate::cost::first_positive;
use crate::narrow::note_sizes;
use crate::wide::first_wide;
use dcx_links::{Entry, Links};
use dcx_tab::{Program, Tableau, WideAt, first_basis, plain_of};
use std::alloc::{AllocError, Global};

/// A tableau in linked cells: only numbers other than 0 are met. While it is narrow, each row has a size that no number of it passes.
#[derive(Drop)]
pub struct Chained {
    links: Links,
    entries: Vec<Entry>,
    sizes: Vec<u64>,
    basis: Vec<u32>,
    rows: u32,
    columns: u32,
    plain: u32,
    narrow: bool,
    ghost height: { links.height ≡ rows + 2 },
    ghost width: { links.width ≡ columns + 3 },
    ghost room: { length entries.items ≡ columns + 3 },
    ghost sizes_size: { length sizes.items ≡ rows + 2 },
    ghost basis_size: { length basis.items ≡ rows + 2 },
    ghost row_count: { rows + 2 < 2 ^ 32 },
    ghost column_count: { columns + 3 < 2 ^ 32 },
    ghost plain_below: { plain ≤ columns },
    ghost small: { (i : ℕ) → i < rows + 2 → AllSmall (row_of links i) },
    ghost narrow_rows: { narrow ≡ true → AreSized (rows + 2) sizes.items links },
}

impl Chained {
    ghost use Rattle.std.specs.Prelude.{IfOk};
    ghost use Rattle.dcx_tab.specs.First.{first_tableau};
    ghost use Rattle.dcx_chained.specs.Tables.{table_of};

    /// The tableau from which the simplex starts on a program. Takes all memory that the tableau needs.
    pub fn build(alloc: Global, program: &Program) -> Result<Chained, AllocError>
        ensures { IfOk result (λ c. table_of c ≡ first_tableau program.now) }
    {
        let rows = program.rows.as_slice();
        let count = rows.len() as u32;
        let kinds = program.columns.as_slice();
        let columns = kinds.len() as u32;
        let mut links = Links::reserve(alloc, count + 2, columns + 3)?;
        let entries = vec![in alloc; Entry { at: 0, value: 0 }; kinds.len() + 3]?;
        let mut sizes = vec![in alloc; 0u64; rows.len() + 2]?;
        let basis = first_basis(alloc, program)?;
        put_rows(&mut links, rows);
        let objective = &program.objective;
        put_line(
            &mut links,
            count,
            objective.entries.as_slice(),
            objective.lead,
            0,
            objective.right,
        );
        let phase = &program.phase;
        put_line(
            &mut links,
            count + 1,
            phase.entries.as_slice(),
            0,
            phase.lead,
            phase.right,
        );
        let narrow = note_sizes(&links, count + 2, &mut sizes);
        Ok(Chained {
            links,
            entries,
            sizes,
            basis,
            rows: count,
            columns,
            plain: plain_of(kinds) as u32,
            narrow,
        })
    }

    /// The first row and column at which a pivot is wide. Where all numbers are narrow, none is looked for.
    fn wide_at(&self, row: u32, column: u32) -> Option<WideAt>
        requires row { row < self.now.links.height }
        requires column { column < self.now.links.width }
        requires some { entry (row_of self.now.links row) column ≢ pos 0 }
        ensures found { IfSome result (λ at. IsFirstWideAt (turned column (row_of self.now.links row)) row column (rows_of self.now.links) at.row at.column) }
        ensures none { IfNone result (AllFormedAt (turned column (row_of self.now.links row)) row column (rows_of self.now.links)) }
    {
        if self.narrow {
            None
        } else {
            first_wide(&self.links, row, column)
        }
    }
}

impl Tableau for Chained {
    ghost use Rattle.dcx_chained.specs.Tables.{table_of};

    ghost table = { table_of };

    ghost plain_below = { λ t. t.plain_below };

    ghost few_columns = { λ t. t.column_count };

    fn rows(&self) -> u32 {
        self.rows
    }

    fn columns(&self) -> u32 {
        self.columns
    }

    fn plain(&self) -> u32 {
        self.plain
    }

    fn entry(&self, row: u32, column: u32) -> i128 {
        self.links.get(row, column)
    }

    fn first_positive(&self, row: u32) -> Option<u32> {
        first_positive(&self.links, row, self.plain)
    }

    fn basis(&self, row: u32) -> u32 {
        self.basis[row as usize]
    }

    fn pivot(&mut self, row: u32, column: u32) -> Result<(), WideAt> {
        if let Some(at) = self.wide_at(row, column) {
            return Err(at);
        }
        let are_narrow = clear_rows(
            &mut self.links,
            row,
            column,
            &mut self.entries,
            &mut self.sizes,
            self.narrow,
        );
        turn_row(&mut self.links, row, column);
        self.basis[row as usize] = column;
        self.narrow = are_narrow;
        Ok(())
    }
}
