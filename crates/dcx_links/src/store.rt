//! Cells in one list, linked by index.
ghost use Rattle.std.specs.Prelude.{◌*◌, ◌≤◌, length, vec_capacity};
ghost use Rattle.dcx_links.specs.Lines.{none};

/// A number at its place, and the next cells of its row and its column.
#[derive(Clone, Copy)]
pub(crate) struct Cell {
    pub(crate) value: i128,
    pub(crate) row: u32,
    pub(crate) column: u32,
    pub(crate) next_in_row: u32,
    pub(crate) next_in_column: u32,
}

/// The cells, and the first cell of each row, of each column and of those without a number.
///
/// There is room for a cell at each place, and a cell is made when it is first needed: memory that is taken and never written costs nothing.
#[derive(Drop)]
pub(crate) struct Store {
    pub(crate) cells: Vec<Cell>,
    pub(crate) row_heads: Vec<u32>,
    pub(crate) column_heads: Vec<u32>,
    pub(crate) free: u32,
    ghost enough: { length row_heads.items * length column_heads.items ≤ vec_capacity cells },
    ghost few: { vec_capacity cells ≤ none },
}

/// The link that leads nowhere.
pub(crate) const NONE: u32 = u32::MAX;
