//! The factors by which a pivot clears a row.
ghost use Rattle.std.specs.Prelude.{◌≡◌, ◌≢◌, ℕ, ◌<◌, ◌<ℤ◌, ◌^◌, pos, unsigned_abs};
ghost use Rattle.dcx_math.specs.Divisors.{gcd, divided};
ghost use Rattle.dcx_tab.specs.Rows.{Row, entry};
ghost use Rattle.dcx_chained.specs.NewRow.{Clears};

use crate::words::divided_by;
use dcx_frac::gcd;
use dcx_tab::Factors;

/// The greatest common divisor of a positive number and another.
fn shared_by(p: i128, a: i128) -> i128
    requires { pos 0 <ℤ p }
    ensures divisor { result ≡ pos (gcd (unsigned_abs p) (unsigned_abs a)) }
    ensures positive { pos 0 <ℤ result }
{
    gcd(p.unsigned_abs(), a.unsigned_abs()) as i128
}

/// The least factors, where the entries at the pivot's column are `p` in its row and `a` in the other.
fn least_factors(p: i128, a: i128) -> Factors
    requires { pos 0 <ℤ p }
    ensures row { result.row ≡ divided (gcd (unsigned_abs p) (unsigned_abs a)) p }
    ensures by { result.by ≡ divided (gcd (unsigned_abs p) (unsigned_abs a)) a }
{
    if p == 1 {
        return Factors { row: 1, by: a };
    }
    let shared = shared_by(p, a);
    Factors {
        row: divided_by(p, shared),
        by: divided_by(a, shared),
    }
}

/// The factors, where the entries at the pivot's column are `p` in its row and `a` in the other.
pub(crate) fn factors_of(p: i128, a: i128) -> Factors
    requires some { p ≢ pos 0 }
    requires small_pivot { unsigned_abs p < 2 ^ 127 }
    requires small { unsigned_abs a < 2 ^ 127 }
    ensures some { result.row ≢ pos 0 }
    ensures clears { (c : ℕ) (pivot row : Row) → entry pivot c ≡ p → entry row c ≡ a → Clears c pivot row result.row result.by }
{
    if p > 0 {
        return least_factors(p, a);
    }
    let factors = least_factors(-p, a);
    Factors {
        row: factors.row,
        by: -factors.by,
    }
}
