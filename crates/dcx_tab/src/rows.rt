//! The rows and the columns of a program of integers.
use crate::lists::Ints;
use dcx_frac::Frac;

/// What a column of a program stands for.
#[derive(Clone, Copy, PartialEq, Eq)]
pub enum ColumnKind {
    /// An unknown, or the part of it below 0, negated.
    Unknown { unknown: u32, negated: bool },
    /// What an inequality is short of its right side.
    Slack { row: u32 },
    /// What a row is short of its right side at the start; 0 in the end.
    Artificial { row: u32 },
}

/// A row: the sum of its entries times the columns is its right side.
#[derive(Drop)]
pub struct IntRow {
    /// One number for each column.
    pub entries: Ints,
    /// The right side.
    pub right: i128,
    /// The first basic column.
    pub basic: u32,
    /// What the row of fractions was multiplied by to get this row.
    pub factor: Frac,
    /// Whether it was negated then.
    pub negated: bool,
}

/// A row of costs: the sum of its entries times the columns, and `lead` times the cost, is its right side.
#[derive(Drop)]
pub struct CostRow {
    /// One number for each column.
    pub entries: Ints,
    /// The entry of the cost.
    pub lead: i128,
    /// The right side.
    pub right: i128,
}
