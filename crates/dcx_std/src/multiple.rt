//! The least common multiple of denominators, by which a row is made whole.
ghost use Rattle.std.specs.Prelude.{◌≡◌, ◌<◌, ◌^◌, pos, SomeIff};
ghost use Rattle.dcx_math.specs.Rational.{whole};
ghost use Rattle.dcx_math.specs.Divisors.{lcm};
ghost use Rattle.dcx_atom.specs.Formed.{frac_at};
ghost use Rattle.dcx_std.specs.Multiples.{lcm_gives, denominator_of, multiple_of};

use dcx_frac::{Frac, LARGEST, Op, Passes, gcd};
use dcx_linear::Form;

/// The least common multiple, or `None` where it passes 2^127 - 1.
fn multiple(a: u128, b: u128) -> Option<u128>
    requires { 0 < b }
    ensures { SomeIff result (lcm a b < 2 ^ 127) (lcm a b) }
{
    let product = a.checked_mul(b / gcd(a, b))?;
    if product > LARGEST {
        None
    } else {
        Some(product)
    }
}

/// The number as a fraction.
pub(crate) fn whole_number(n: u128) -> Frac
    requires { n < 2 ^ 127 }
    ensures { result ≡ frac_at (whole (pos n)) }
{
    match Frac::of(n as i128, 1) {
        Some(number) => number,
        None => unreachable!(),
    }
}

/// The least common multiple, or what was asked where it passes 2^127 - 1.
fn common_multiple(a: u128, b: u128) -> Result<u128, Passes>
    requires left { a < 2 ^ 127 }
    requires right { b < 2 ^ 127 }
    requires positive { 0 < b }
    ensures { result ≡ lcm_gives a b }
{
    match multiple(a, b) {
        Some(found) => Ok(found),
        None => Err(Passes {
            op: Op::Lcm,
            left: whole_number(a),
            right: whole_number(b),
        }),
    }
}

/// The size of the denominator.
fn denominator(x: &Frac) -> u128
    ensures value { result ≡ denominator_of x.now }
    ensures positive { 0 < result }
    ensures fits { result < 2 ^ 127 }
{
    x.den().unsigned_abs()
}

/// The least common multiple of the denominators of a form, from 1 on: unknowns rising, and then the constant.
///
/// `Passes` where a multiple passes 2^127 - 1: the first one.
pub fn least_multiple(form: &Form<Frac>) -> Result<u128, Passes>
    ensures { result ≡ multiple_of form.now }
{
    let mut found = 1u128;
    'terms: for term in form.terms.as_slice() {
        found = common_multiple(found, denominator(&term.coefficient))?;
    }
    common_multiple(found, denominator(&form.constant))
}
