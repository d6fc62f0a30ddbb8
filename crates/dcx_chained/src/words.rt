//! Quotients by a divisor that is 1 most of the time.
ghost use Rattle.std.specs.Prelude.{◌≡◌, ◌<ℤ◌, pos, unsigned_abs};
ghost use Rattle.dcx_math.specs.Divisors.{divided};

use dcx_links::quotient;

/// The quotient by a divisor.
pub(crate) fn divided_by(value: i128, divisor: i128) -> i128
    requires { pos 0 <ℤ divisor }
    ensures { result ≡ divided (unsigned_abs divisor) value }
{
    if divisor == 1 {
        value
    } else {
        quotient(value, divisor)
    }
}
