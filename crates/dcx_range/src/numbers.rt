//! Numbers as the definitions have them.
ghost use Rattle.std.specs.Prelude.{◌≡◌, pos};
ghost use Rattle.dcx_math.specs.Rational.{whole, rat_le, rat_eq};
ghost use Rattle.dcx_frac.specs.Frac.{value};
ghost use Rattle.dcx_atom.specs.Formed.{zero_frac};

use dcx_atom::is_at_most;
use dcx_frac::Frac;

/// The number 0, as the definitions have it.
pub(crate) fn zero() -> Frac
    ensures { result ≡ zero_frac }
{
    Frac::zero()
}

/// Whether a number is 0.
pub(crate) fn is_zero(x: Frac) -> bool
    ensures { result ≡ rat_eq (value x) (whole (pos 0)) }
{
    x.is_zero()
}

/// Whether a number is at most 0.
pub(crate) fn is_nonpos(x: Frac) -> bool
    ensures { result ≡ rat_le (value x) (value zero_frac) }
{
    is_at_most(&x, &zero())
}
