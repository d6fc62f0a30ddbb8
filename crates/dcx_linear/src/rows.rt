//! Linear programs as rows over unknowns of known kinds.
ghost use Rattle.std.specs.Prelude.{◌≤◌, length};
ghost use Rattle.dcx_linear.specs.Widths.{form_width, rows_width};

use crate::coef::Coef;
use crate::form::Form;
use crate::row::{RowList, UnknownKinds};

/// Rows, what is to be small, and the kind of each unknown.
#[derive(Drop)]
pub struct Rows<C: Coef> {
    /// The rows.
    pub rows: RowList<C>,
    /// What is to be small.
    pub objective: Form<C>,
    /// The kind of each unknown.
    pub kinds: UnknownKinds,
    pub ghost rows_known: { rows_width rows ≤ length kinds },
    pub ghost objective_known: { form_width objective ≤ length kinds },
}
