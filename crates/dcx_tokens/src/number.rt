//! Numbers: how they are spelled, and their exact values.
ghost use Rattle.std.specs.Prelude.{◌≡◌, ◌≤◌, ◌<◌, ◌+◌, ◌*◌, ◌^◌, length, pos, min, IfSome};
ghost use Rattle.std.specs.Char.{digit_value};
ghost use Rattle.std.specs.Str.Parse.{digits_value, digits_value_after, AllDigits};
ghost use Rattle.dcx_math.specs.Rational.{whole, ◌/ℚ◌};
ghost use Rattle.dcx_frac.specs.Frac.{value};
ghost use Rattle.dcx_tokens.specs.Number.{
  digits,
  fraction_digits,
  fraction_len,
  exponent_sign_len,
  exponent_digits,
  exponent_len,
  is_negative,
  mantissa,
  power_of_ten,
  spelling_of,
  spelling_at,
  is_spoiled,
  frac_of_spelling,
  number_at,
};

use crate::front::digit_run;
use dcx_frac::Frac;

/// The most digits before the exponent.
const MOST_DIGITS: usize = 30;

/// The largest exponent, up or down.
const LARGEST_EXPONENT: u32 = 30;

/// How a number is spelled: its digits before and behind the point, those of its exponent, and how many characters it has.
#[derive(Clone, Copy)]
struct Numeral<'a> {
    whole: &'a [char],
    fraction: &'a [char],
    is_negative: bool,
    exponent: &'a [char],
    count: usize,
}

/// The digits in front.
fn leading_digits(chars: &[char]) -> &[char]
    ensures value { result.now ≡ digits chars.now }
    ensures digits { AllDigits 10 result.now }
    ensures within { length result.now ≤ length chars.now }
{
    &chars[..digit_run(chars)]
}

/// The digits behind a point.
fn fraction(chars: &[char]) -> &[char]
    ensures value { result.now ≡ fraction_digits chars.now }
    ensures digits { AllDigits 10 result.now }
{
    match chars {
        [c, after @ ..] => if *c == '.' {
            leading_digits(after)
        } else {
            &[]
        },
        [] => &[],
    }
}

/// How many characters a point has with its digits.
fn fraction_count(chars: &[char]) -> usize
    ensures value { result ≡ fraction_len chars.now }
    ensures within { result ≤ length chars.now }
{
    match chars {
        [c, after @ ..] => if *c == '.' { 1 + digit_run(after) } else { 0 },
        [] => 0,
    }
}

/// How many characters the sign of an exponent has.
fn exponent_sign(chars: &[char]) -> usize
    ensures value { result ≡ exponent_sign_len chars.now }
    ensures within { result ≤ length chars.now }
{
    match chars {
        [c, ..] => if *c == '+' || *c == '-' { 1 } else { 0 },
        [] => 0,
    }
}

/// The digits of an exponent.
fn exponent(chars: &[char]) -> &[char]
    ensures value { result.now ≡ exponent_digits chars.now }
    ensures digits { AllDigits 10 result.now }
{
    match chars {
        [c, after @ ..] => if *c == 'e' || *c == 'E' {
            leading_digits(&after[exponent_sign(after)..])
        } else {
            &[]
        },
        [] => &[],
    }
}

/// Whether an exponent has a minus.
fn has_minus(chars: &[char]) -> bool
    ensures { result ≡ is_negative chars.now }
{
    match chars {
        [c, d, ..] => (*c == 'e' || *c == 'E') && *d == '-',
        _ => false,
    }
}

/// Whether a number may not end before these characters.
fn spoils(chars: &[char]) -> bool
    ensures { result ≡ is_spoiled chars.now }
{
    match chars {
        [] => false,
        [c, ..] => unicode_ident::is_xid_continue(*c) || *c == '.',
    }
}

/// The number that these digits write behind those of `start`.
fn with_digits(start: u128, digits: &[char]) -> u128
    requires digits { AllDigits 10 digits.now }
    requires room { (start + 1) * 10 ^ length digits.now ≤ 10 ^ 30 }
    ensures value { result ≡ digits_value_after 10 start digits.now }
    ensures small { result + 1 ≤ (start + 1) * 10 ^ length digits.now }
{
    let mut number = start;
    for c in digits {
        number = number * 10 + u128::from(digit(*c));
    }
    number
}

/// The value of a digit.
fn digit(c: char) -> u32
    requires { digit_value c < 10 }
    ensures value { result ≡ digit_value c }
    ensures small { result < 10 }
{
    c.to_digit(10).unwrap()
}

/// The number that these digits write, or 31 where it is more than 30.
fn exponent_size(digits: &[char]) -> u32
    requires { AllDigits 10 digits.now }
    ensures { result ≡ min 31 (digits_value 10 digits.now) }
{
    let mut size = 0;
    for c in digits {
        size = (size * 10 + digit(*c)).min(LARGEST_EXPONENT + 1);
    }
    size
}

/// The exact quotient of two numbers that are not too large.
fn quotient(num: u128, den: u128) -> Frac
    requires num { num ≤ 10 ^ 30 }
    requires den { den ≤ 10 ^ 30 }
    requires positive { 0 < den }
    ensures { value result ≡ whole (pos num) /ℚ whole (pos den) }
{
    match Frac::of(num as i128, den as i128) {
        Some(frac) => frac,
        None => unreachable!(),
    }
}

/// The digits before and behind a point, as a number.
fn mantissa(front: &[char], behind: &[char]) -> Frac
    requires front { AllDigits 10 front.now }
    requires behind { AllDigits 10 behind.now }
    requires few { length front.now + length behind.now ≤ 30 }
    ensures { value result ≡ mantissa front.now behind.now }
{
    let number = with_digits(with_digits(0, front), behind);
    quotient(number, 10u128.pow(behind.len() as u32))
}

/// A power of ten, or one over it.
fn power(is_negative: bool, size: u32) -> Frac
    requires { size ≤ 30 }
    ensures { value result ≡ power_of_ten is_negative size }
{
    let power = 10u128.pow(size);
    if is_negative {
        quotient(1, power)
    } else {
        quotient(power, 1)
    }
}

/// How many characters an exponent has.
fn exponent_count(chars: &[char]) -> usize
    ensures value { result ≡ exponent_len chars.now }
    ensures within { result ≤ length chars.now }
{
    let digits = exponent(chars).len();
    if digits == 0 {
        return 0;
    }
    1 + exponent_sign(&chars[1..]) + digits
}

/// The number in front, as it is spelled.
#[tactic(auto, unfolding(crate::specs::Number::spelling_at))]
fn leading_number(chars: &[char]) -> Numeral<'_>
    ensures value { spelling_of result ≡ spelling_at chars.now }
    ensures within { result.count ≤ length chars.now }
    ensures whole { AllDigits 10 result.whole.now }
    ensures fraction { AllDigits 10 result.fraction.now }
    ensures exponent { AllDigits 10 result.exponent.now }
{
    let (_, behind_whole) = chars.split_at(digit_run(chars));
    let (_, behind) = behind_whole.split_at(fraction_count(behind_whole));
    Numeral {
        whole: leading_digits(chars),
        fraction: fraction(behind_whole),
        is_negative: has_minus(behind),
        exponent: exponent(behind),
        count: chars.len() - behind.len() + exponent_count(behind),
    }
}

/// The value of a number, unless it is too large.
fn value_of(numeral: Numeral<'_>) -> Option<Frac>
    requires whole { AllDigits 10 numeral.whole.now }
    requires fraction { AllDigits 10 numeral.fraction.now }
    requires exponent { AllDigits 10 numeral.exponent.now }
    ensures { result ≡ frac_of_spelling (spelling_of numeral.entry) }
{
    if numeral.whole.len() + numeral.fraction.len() > MOST_DIGITS {
        return None;
    }
    let size = exponent_size(numeral.exponent);
    if size > LARGEST_EXPONENT {
        return None;
    }
    let mantissa = mantissa(numeral.whole, numeral.fraction);
    mantissa.mul(power(numeral.is_negative, size)).ok()
}

/// The value of the number in front and how many characters it has, unless it is malformed or too large.
#[tactic(auto, unfolding(crate::specs::Number::number_at))]
pub(crate) fn number(chars: &[char]) -> Option<(Frac, usize)>
    ensures value { result ≡ number_at chars.now }
    ensures within { IfSome result (λ n. n.1 ≤ length chars.now) }
{
    let numeral = leading_number(chars);
    let (_, behind) = chars.split_at(numeral.count);
    if spoils(behind) {
        return None;
    }
    let frac = value_of(numeral)?;
    Some((frac, numeral.count))
}
