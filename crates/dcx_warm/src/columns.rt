//! A list of columns.

use dcx_math::List;

/// Columns of a program, seen by contracts as a list of their numbers.
pub type Columns = List<u32>;
