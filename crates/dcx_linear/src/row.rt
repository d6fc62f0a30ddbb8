//! Rows over unknowns, and the kinds of unknowns.

use crate::coef::Coef;
use crate::form::Form;
use dcx_math::List;

/// How the form of a row stands to 0.
#[derive(Clone, Copy)]
pub enum RowKind {
    /// The form is at most 0.
    AtMost,
    /// The form is 0.
    Equal,
}

/// A row: a form that is at most 0, or 0.
#[derive(Drop)]
pub struct Row<C: Coef> {
    /// How the form stands to 0.
    pub kind: RowKind,
    /// The form.
    pub form: Form<C>,
}

/// Rows, in order.
pub type RowList<C> = List<Row<C>>;

/// Which numbers an unknown may be.
#[derive(Clone, Copy)]
pub enum UnknownKind {
    /// Any number.
    Free,
    /// A number of at least 0.
    Nonneg,
    /// A number of at most 0.
    Nonpos,
}

/// The kinds of unknowns, in order.
pub type UnknownKinds = List<UnknownKind>;
