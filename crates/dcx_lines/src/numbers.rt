//! Reads numbers that stand as they are written.
ghost use Rattle.std.specs.Prelude.{◌≡◌, ◌<◌, ◌-◌, ◌^◌, ◌++◌, [], ℕ, ℤ, pos, neg_ℤ, List, Some, ◌∷◌, min, take, drop, length, ◌≤◌, IfSome, IfNone, IsSomeAnd, IfOk, MatchOption, unsigned_abs};
ghost use Rattle.std.specs.Fmt.{signed_decimal};
ghost use Rattle.std.specs.List.{AllByRecursion};
ghost use Rattle.dcx_frac.specs.declared.fraction.Frac.{Frac};
ghost use Rattle.dcx_frac.specs.Frac.{num_of, den_of};
ghost use Rattle.dcx_frac.specs.Text.{frac_text};
ghost use Rattle.dcx_lines.specs.Pieces.{entry_text};
ghost use Rattle.dcx_lines.specs.Reading.{worth_of, IsInk, IsNoSlash, BeginsWithout, HasEntries};

use dcx_frac::{Frac, write_frac};
use std::alloc::AllocError;

/// The largest size of a part of a fraction.
const LARGEST: u128 = 0x7fff_ffff_ffff_ffff_ffff_ffff_ffff_ffff;

/// The number that digits write, or the largest of its type where it is larger.
fn worth(digits: &[u8]) -> u128
    ensures { result ≡ min (worth_of digits.now) (2 ^ 128 - 1) }
{
    let mut number: u128 = 0;
    for digit in digits {
        let one = u128::from(digit.saturating_sub(48));
        number = number.saturating_mul(10).saturating_add(one);
    }
    number
}

/// The number of this size, where a part of a fraction may be it.
fn upward(size: u128) -> Option<i128>
    ensures { size < 2 ^ 127 → result ≡ Some (pos size) }
{
    if size > LARGEST {
        None
    } else {
        Some(size as i128)
    }
}

/// The number of this size below 0, where a part of a fraction may be it.
fn downward(size: u128) -> Option<i128>
    ensures { size < 2 ^ 127 → result ≡ Some (neg_ℤ (pos size)) }
{
    if size > LARGEST {
        None
    } else {
        Some(-(size as i128))
    }
}

/// What stands behind a byte; `None` where another one stands first.
fn behind(byte: u8, bytes: &[u8]) -> Option<&[u8]>
    ensures { MatchOption result ((rest : List ℕ) → bytes.now ≡ byte ∷ rest → ⊥) (λ rest. bytes.now ≡ byte ∷ rest.now) }
{
    match bytes.split_first() {
        Some((first, rest)) if *first == byte => Some(rest),
        _ => None,
    }
}

/// The whole number that bytes write. Of bytes that write none it may be any or none.
fn whole(bytes: &[u8]) -> Option<i128>
    ensures { (z : ℤ) → unsigned_abs z < 2 ^ 127 → bytes.now ≡ signed_decimal z → result ≡ Some z }
{
    match behind(b'-', bytes) {
        Some(digits) => downward(worth(digits)),
        None => upward(worth(bytes)),
    }
}

/// The fraction of these parts, where both are there.
fn of_parts(num: Option<i128>, den: Option<i128>) -> Option<Frac>
    ensures { (f : Frac) → num ≡ Some (num_of f) → den ≡ Some (den_of f) → result ≡ Some f }
{
    match (num, den) {
        (Some(num), Some(den)) => Frac::of(num, den),
        _ => None,
    }
}

/// Where the first `/` stands, or the length where there is none.
fn slash_in(bytes: &[u8]) -> usize
    ensures within { result ≤ length bytes.now }
    ensures before { AllByRecursion IsNoSlash (take result bytes.now) }
    ensures found { result < length bytes.now → BeginsWithout IsNoSlash (drop result bytes.now) }
{
    for (i, c) in bytes.iter().enumerate() {
        if *c == b'/' {
            return i;
        }
    }
    bytes.len()
}

/// The fraction that bytes write. Of bytes that write none it may be any or none.
fn written(bytes: &[u8]) -> Option<Frac>
    ensures { (f : Frac) → bytes.now ≡ frac_text f → result ≡ Some f }
{
    let (num, den) = bytes.split_at(slash_in(bytes));
    match behind(b'/', den) {
        Some(den) => of_parts(whole(num), whole(den)),
        None => of_parts(whole(num), Some(1)),
    }
}

/// The fraction whose text the bytes are; `None` where they are the text of none.
pub fn read_frac(bytes: &[u8]) -> Option<Frac>
    ensures read { IfSome result (λ f. bytes.now ≡ frac_text f) }
    ensures every { (f : Frac) → bytes.now ≡ frac_text f → result ≡ Some f }
{
    let fraction = written(bytes)?;
    let mut digits = [0; 90];
    let length = write_frac(&fraction, &mut digits);
    if &digits[..length] == bytes {
        Some(fraction)
    } else {
        None
    }
}

/// How many bytes stand before the first blank, line feed or other byte that small.
fn ink_in(bytes: &[u8]) -> usize
    ensures within { result ≤ length bytes.now }
    ensures before { AllByRecursion IsInk (take result bytes.now) }
    ensures found { result < length bytes.now → BeginsWithout IsInk (drop result bytes.now) }
{
    for (i, c) in bytes.iter().enumerate() {
        if *c <= b' ' {
            return i;
        }
    }
    bytes.len()
}

/// The number that stands there, and what stands behind it.
fn read_ink(bytes: &[u8]) -> Option<(Frac, &[u8])>
    ensures read { IfSome result (λ p. bytes.now ≡ frac_text p.0 ++ p.1.now) }
    ensures every { (f : Frac) (rest : List ℕ) → BeginsWithout IsInk rest → bytes.now ≡ frac_text f ++ rest → IsSomeAnd result (λ p. (p.0 ≡ f) × (p.1.now ≡ rest)) }
{
    let (text, rest) = bytes.split_at(ink_in(bytes));
    match read_frac(text) {
        Some(number) => Some((number, rest)),
        None => None,
    }
}

/// The number that stands behind a blank, and what stands behind it.
fn read_entry(bytes: &[u8]) -> Option<(Frac, &[u8])>
    ensures read { IfSome result (λ p. bytes.now ≡ entry_text p.0 ++ p.1.now) }
    ensures every { (f : Frac) (rest : List ℕ) → BeginsWithout IsInk rest → bytes.now ≡ entry_text f ++ rest → IsSomeAnd result (λ p. (p.0 ≡ f) × (p.1.now ≡ rest)) }
{
    match behind(b' ', bytes) {
        Some(ink) => read_ink(ink),
        None => None,
    }
}

/// Reads so many numbers, each behind a blank, and then a line feed. Gives what stands behind that, or `None` where these
/// don't stand there. The numbers go to the end of an empty list.
///
/// Fails only for want of memory.
pub fn read_entries<'a>(
    bytes: &'a [u8],
    count: u32,
    numbers: &mut Vec<Frac>,
) -> Result<Option<&'a [u8]>, AllocError>
    requires { numbers.old.items ≡ [] }
    ensures read { IfOk result (λ o. IfSome o (λ rest. HasEntries count bytes.now numbers.new.items rest.now)) }
    ensures none { IfOk result (λ o. IfNone o ((numbers : List Frac) (rest : List ℕ) → HasEntries count bytes.now numbers rest → ⊥)) }
{
    let mut rest = bytes;
    'entries: for _ in 0..count {
        match read_entry(rest) {
            Some((number, after)) => {
                numbers.push(number)?;
                rest = after;
            }
            None => return Ok(None),
        }
    }
    Ok(behind(b'\n', rest))
}
