//! A sparse matrix of whole numbers, whose cells are linked by index.
//!
//! Every cell with a number other than 0 stands in one row chain and one column chain, each in rising order, and every other
//! one in the chain of free cells. `specs/Matrix.antt` says what callers see, `specs/Cells.antt` how the cells lie in memory,
//! and `specs/Lines.antt` what a chain is.
//!
//! A number is put at its place from the cell where the last number of its row, or of its column, was written, if that cell
//! still stands before it, and else from the head. So numbers that are written by rising rows and columns find their places in
//! one pass down each chain. A number is read from the cell before the place that was read last, if that stands in its row and
//! before it, or from the cell of its column that was seen last, if that stands before it, so that a row read by rising columns, and a
//! column read by rising rows, is passed once. Where a search begins decides nothing but the time.
#![tactic(auto)]

pub mod laws;
mod links;
mod multiple;
mod number;
mod pair;
mod reserve;
mod rewrite;
mod search;
mod store;
mod walk;
mod write;

pub use links::Links;
pub use pair::{Pair, PairWalk};
pub use rewrite::quotient;
pub use walk::{ColumnWalk, Entry, RowWalk};
