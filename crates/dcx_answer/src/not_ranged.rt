//! Why a parameter has no range.
use thiserror::Error;

/// Why a parameter has no range.
#[derive(Clone, Copy, Debug, Error)]
pub enum NotRanged {
    /// The problem reaches no parameter of this name.
    #[error("the problem has no such parameter")]
    Unknown,
    /// The parameter is an array with sides.
    #[error("the parameter isn't a number")]
    Shape,
    /// There is no program with affine coefficients.
    #[error("the problem has no program with affine coefficients")]
    Map,
    /// The parameter stands in the coefficient of an unknown.
    #[error("the parameter stands in a coefficient")]
    Coefficient,
}
