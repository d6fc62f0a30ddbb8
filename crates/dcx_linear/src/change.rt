//! What can be done to a whole number, affine number or form with one fraction.
use dcx_frac::Frac;

/// A multiplication or a division by a fraction.
#[derive(Clone, Copy)]
pub enum Change {
    /// Multiply by it. It stands on the left.
    Scale(Frac),
    /// Divide by it. It is not 0.
    Divide(Frac),
}
