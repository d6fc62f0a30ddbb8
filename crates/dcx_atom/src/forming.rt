//! Numbers of lists, sums in order, and the tests of conditions on weights: what the code of the calls shares.
ghost use Rattle.std.specs.Prelude.{◌≡◌, map, negsuc, slice_index_or};
ghost use Rattle.std.specs.Result.{result_err};
ghost use Rattle.dcx_math.specs.Rational.{whole, rat_le, rat_eq};
ghost use Rattle.dcx_frac.specs.Frac.{value};
ghost use Rattle.dcx_atom.specs.Arrays.{number_at};
ghost use Rattle.dcx_atom.specs.Entrywise.{added_product};
ghost use Rattle.dcx_atom.specs.Formed.{zero_frac, sum_in_order};
ghost use Rattle.dcx_atom.specs.Steps.{broken_at, weights_stop};

use crate::stops::SlopeStop;
use dcx_frac::{Frac, Passes};
use std::cmp::Ordering;

/// The number -1.
pub fn minus_one() -> Frac
    ensures { value result ≡ whole (negsuc 0) }
{
    Frac::one().neg()
}

/// Number `k` of a list, and 0 past its end.
pub fn number_at(numbers: &[Frac], k: usize) -> Frac
    ensures is { result ≡ slice_index_or numbers.now k zero_frac }
    ensures exact { value result ≡ number_at numbers.now k }
{
    if k < numbers.len() {
        numbers[k]
    } else {
        Frac::zero()
    }
}

/// The sum of the numbers in order, from 0, or the first addition that passes 128 bits.
pub fn sum_all(numbers: &[Frac]) -> Result<Frac, Passes>
    ensures { result ≡ sum_in_order (map value numbers.now) }
{
    let mut sum = Frac::zero();
    for number in numbers {
        sum = sum.add(*number)?;
    }
    Ok(sum)
}

/// The sum with one more product, or the operation that passes 128 bits.
pub fn add_product(sum: Frac, x: Frac, y: Frac) -> Result<Frac, Passes>
    ensures { result ≡ added_product sum (x, y) }
{
    sum.add(x.mul(y)?)
}

/// Whether `x` is at most `y`.
pub fn is_at_most(x: &Frac, y: &Frac) -> bool
    ensures { result ≡ rat_le (value x.now) (value y.now) }
{
    match x.cmp_exact(y) {
        Ordering::Greater => false,
        _ => true,
    }
}

/// Whether `x` is `y`. In lowest terms equal numbers have equal parts.
pub fn is_equal(x: &Frac, y: &Frac) -> bool
    ensures { result ≡ rat_eq (value x.now) (value y.now) }
{
    *x == *y
}

/// `Refused` where `stated` isn't at most `found`.
pub fn check_at_most(entry: u32, stated: Frac, found: Frac) -> Result<(), SlopeStop>
    ensures { result_err result ≡ broken_at entry (rat_le (value stated) (value found)) stated found }
{
    if is_at_most(&stated, &found) {
        Ok(())
    } else {
        Err(SlopeStop::Refused {
            entry,
            stated,
            found,
        })
    }
}

/// `Refused` where `stated` isn't `found`.
pub fn check_equal(entry: u32, stated: Frac, found: Frac) -> Result<(), SlopeStop>
    ensures { result_err result ≡ broken_at entry (rat_eq (value stated) (value found)) stated found }
{
    if is_equal(&stated, &found) {
        Ok(())
    } else {
        Err(SlopeStop::Refused {
            entry,
            stated,
            found,
        })
    }
}

/// `Refused` at the first weight that isn't at least 0.
pub fn check_weights(entry: u32, weights: &[Frac]) -> Result<(), SlopeStop>
    ensures { result_err result ≡ weights_stop entry (map value weights.now) }
{
    let zero = Frac::zero();
    for weight in weights {
        if !is_at_most(&zero, weight) {
            return Err(SlopeStop::Refused {
                entry,
                stated: *weight,
                found: zero,
            });
        }
    }
    Ok(())
}
