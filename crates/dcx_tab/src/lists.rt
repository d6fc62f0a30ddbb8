//! The lists that a program is made of, each seen by contracts as a list.

use crate::rows::{ColumnKind, IntRow};
use dcx_math::List;

/// Integers.
pub type Ints = List<i128>;

/// Rows.
pub type IntRows = List<IntRow>;

/// Kinds of columns.
pub type ColumnKinds = List<ColumnKind>;
