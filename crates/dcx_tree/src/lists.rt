//! The lists that a problem holds, seen by contracts as lists of their items.

use crate::constraint::Constraint;
use dcx_call::{Parameter, Variable};
use dcx_math::List;

/// Variables in order of declaration.
pub type Variables = List<Variable>;

/// Parameters in order of declaration.
pub type Parameters = List<Parameter>;

/// Constraints in the order of the script.
pub type Constraints = List<Constraint>;
