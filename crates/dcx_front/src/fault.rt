//! Why bytes give no accepted problem.
use dcx_refusal::Refusal;

/// Why bytes give no accepted problem.
#[derive(Clone, Copy)]
pub enum FrontFault {
    /// They are refused.
    Refused(Refusal),
    /// Memory ran out.
    Memory,
}
