//! A list of fractions.

use crate::fraction::Frac;
use dcx_math::List;

/// Fractions in order, seen by contracts as their list.
pub type Fracs = List<Frac>;
