//! Rows divided by their common divisor.
ghost use Rattle.std.specs.Prelude.{◌≡◌, ◌≢◌, ℕ, ◌<◌};
ghost use Rattle.dcx_math.specs.Divisors.{gcd, gcd_of};
ghost use Rattle.dcx_math.proofs.Primitive.{primitive_part};
ghost use Rattle.dcx_tab.specs.Rows.{AllSmall};
ghost use Rattle.dcx_links.specs.Matrix.{number_at, row_of};

use dcx_frac::gcd;
use dcx_links::Links;

/// The greatest number of one machine word.
const WORD: u128 = u64::MAX as u128;

/// The greatest common divisor of a number and of those before, whose own it is most of the time.
fn shared_with(found: u128, number: u128) -> u128
    ensures { result ≡ gcd number found }
{
    if found == 0 {
        return number;
    }
    if WORD < found {
        return gcd(number, found);
    }
    if WORD < number {
        return gcd(number, found);
    }
    let rest = (number as u64) % (found as u64);
    if rest == 0 {
        return found;
    }
    gcd(found, rest as u128)
}

/// The greatest common divisor of the numbers of a row, looked for until it is 1.
fn row_divisor(links: &Links, i: u32) -> u128
    requires { i < links.now.height }
    ensures { result ≡ gcd_of (row_of links.now i) }
{
    let mut walk = links.row(i);
    let mut found = 0u128;
    'numbers: while let Some(number) = walk.next() {
        found = shared_with(found, number.value.unsigned_abs());
        if found == 1 {
            return 1;
        }
    }
    found
}

/// Makes row `i` primitive.
pub(crate) fn reduce_row(links: &mut Links, i: u32)
    requires row { i < links.old.height }
    requires small { AllSmall (row_of links.old i) }
    ensures row { row_of links.new i ≡ primitive_part (row_of links.old i) }
    ensures same { (k c : ℕ) → k ≢ i → number_at links.new k c ≡ number_at links.old k c }
    ensures height { links.new.height ≡ links.old.height }
    ensures width { links.new.width ≡ links.old.width }
{
    let found = row_divisor(links, i);
    if found > 1 {
        links.divide(i, found as i128);
    }
}
