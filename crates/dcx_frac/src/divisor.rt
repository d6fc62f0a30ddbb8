//! The greatest common divisor, formed in one machine word where both numbers fit into it: in two words it takes several times as long.
ghost use Rattle.std.specs.Prelude.{◌≡◌};
ghost use Rattle.dcx_math.specs.Divisors.{gcd};

/// The greatest number of one word.
const WORD: u128 = u64::MAX as u128;

/// The greatest number that divides both, and 0 where both are 0.
fn gcd_in_word(a: u64, b: u64) -> u64
    ensures { result ≡ gcd a b }
{
    let mut x = a;
    let mut y = b;
    'steps: while y != 0 {
        let rest = x % y;
        x = y;
        y = rest;
    }
    x
}

/// The same of numbers in two words, until what is left fits into one.
fn gcd_in_two_words(a: u128, b: u128) -> u128
    ensures { result ≡ gcd a b }
{
    let mut x = a;
    let mut y = b;
    'steps: while y > WORD {
        let rest = x % y;
        x = y;
        y = rest;
    }
    if y == 0 {
        x
    } else {
        gcd_in_word(y as u64, (x % y) as u64) as u128
    }
}

/// The greatest number that divides both, and 0 where both are 0.
pub fn gcd(a: u128, b: u128) -> u128
    ensures { result ≡ gcd a b }
{
    if a <= WORD && b <= WORD {
        gcd_in_word(a as u64, b as u64) as u128
    } else {
        gcd_in_two_words(a, b)
    }
}
