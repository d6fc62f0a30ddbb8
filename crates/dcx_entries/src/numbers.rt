//! The numbers that coefficients are.
ghost use Rattle.std.specs.Prelude.{◌≡◌, unwrap_or};
ghost use Rattle.dcx_atom.specs.Formed.{zero_frac};

use dcx_frac::Frac;
use dcx_linear::Coef;

/// The number that a coefficient is, and 0 where it is none.
pub(crate) fn number_or_zero<C: Coef>(coefficient: &C) -> Frac
    ensures { result ≡ unwrap_or (C.number_of coefficient.now) zero_frac }
{
    match coefficient.as_number() {
        Some(number) => number,
        None => Frac::zero(),
    }
}
