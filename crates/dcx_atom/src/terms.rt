//! The terms of a linear call.

use dcx_frac::Frac;
use dcx_math::List;

/// A coefficient times an entry of an argument.
#[derive(Clone, Copy, Debug, PartialEq, Eq)]
pub struct Triple {
    /// The argument, counted from 0.
    pub argument: u32,
    /// The entry, in row-major order.
    pub entry: u32,
    /// By how much it is multiplied.
    pub coefficient: Frac,
}

/// The terms whose sum is one entry of a result, in order.
pub type EntryTerms = List<Triple>;

/// For each entry of a result its terms.
pub type Terms = List<EntryTerms>;
