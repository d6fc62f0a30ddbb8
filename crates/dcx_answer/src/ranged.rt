//! What is told of a parameter's range.
use dcx_frac::Frac;

/// What is told of a parameter's range at a setting.
#[derive(Clone, Copy)]
pub enum Ranged {
    /// The problem is optimal at the setting, and at each fitting setting that differs by a value of the parameter in the span alone
    /// the problem is optimal too: its value is the constant plus the slope times the parameter's value.
    Span {
        /// The least value; None where there is none.
        low: Option<Frac>,
        /// The greatest value; None where there is none.
        high: Option<Frac>,
        /// The value of the problem where the parameter is 0.
        constant: Frac,
        /// The change of the value for one unit of the parameter.
        slope: Frac,
    },
    /// No point is feasible at the setting.
    Infeasible,
    /// The objective falls for ever at the setting.
    Unbounded,
}
