//! The multipliers of a problem's constraints.

use dcx_frac::List;
use dcx_point::Array;

/// The multipliers of each constraint, in order.
pub type Duals = List<Array>;
