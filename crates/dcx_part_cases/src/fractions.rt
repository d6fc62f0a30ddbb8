//! Fractions in lowest terms, common divisors, lists, and conditions of slopes on fractions.
use crate::lines::{CaseFault, Numbers, count, fraction, numbers};
use crate::parts::{put_shown, put_stop, put_truth, put_word};
use dcx_atom::{SlopeStop, check_equal, check_weights, is_equal};
use dcx_frac::{Frac, Fracs, gcd};
use std::alloc::Global;

/// `lowest 6 -4 => -3 2`; `gcd 12 18`; `is zero 0` and `is 1 == 2`; `list 0 1` as it is read, and then taken apart; `equal 2 1 3` for
/// entry 2, and `weights 1 1 -1` for entry 1.
pub(crate) fn put_fractions(
    alloc: Global,
    first: &str,
    rest: &[&str],
    out: &mut String,
) -> Result<(), CaseFault> {
    match (first.split_once(' '), rest) {
        (Some(("list", items)), []) => put_list(out, numbers(alloc, items)?),
        (Some((asked, text)), []) => match text.split_once(' ') {
            Some((a, b)) => put_asked(alloc, asked, a, b, out),
            None => Err(CaseFault::Unreadable),
        },
        _ => Err(CaseFault::Unreadable),
    }
}

/// Writes what is asked of the number that one word says and the numbers behind it.
fn put_asked(
    alloc: Global,
    asked: &str,
    a: &str,
    b: &str,
    out: &mut String,
) -> Result<(), CaseFault> {
    match asked {
        "lowest" => put_lowest(out, a, b),
        "gcd" => put_divisor(out, a, b),
        "is" => put_is(out, a, b),
        "equal" => put_equal(out, a, b),
        "weights" => put_weighed(alloc, a, b, out),
        _ => Err(CaseFault::Unreadable),
    }
}

/// A whole number of 128 bits.
fn whole(word: &str) -> Result<i128, CaseFault> {
    match word.parse::<i128>() {
        Ok(number) => Ok(number),
        Err(_) => Err(CaseFault::Unreadable),
    }
}

/// A whole number of 128 bits without a sign.
fn size(word: &str) -> Result<u128, CaseFault> {
    match word.parse::<u128>() {
        Ok(number) => Ok(number),
        Err(_) => Err(CaseFault::Unreadable),
    }
}

/// The fraction of two whole numbers, in lowest terms.
fn lowest(num: &str, den: &str) -> Result<Option<Frac>, CaseFault> {
    Ok(Frac::of(whole(num)?, whole(den)?))
}

/// Writes the fraction of two whole numbers, in lowest terms.
fn put_lowest(out: &mut String, num: &str, den: &str) -> Result<(), CaseFault> {
    match lowest(num, den)? {
        Some(number) => Ok(write!(out, "{} {}", number.num(), number.den())?),
        None => put_word(out, "none"),
    }
}

/// Writes the greatest common divisor of two numbers.
fn put_divisor(out: &mut String, a: &str, b: &str) -> Result<(), CaseFault> {
    put_shown(out, &gcd(size(a)?, size(b)?))
}

/// Writes whether a number is zero, as `zero 0`, or is another one, as `1 == 2`.
fn put_is(out: &mut String, a: &str, b: &str) -> Result<(), CaseFault> {
    match (a, b.strip_prefix("== ")) {
        (a, Some(b)) => put_truth(out, is_equal(&fraction(a)?, &fraction(b)?)),
        ("zero", None) => put_truth(out, fraction(b)?.is_zero()),
        _ => Err(CaseFault::Unreadable),
    }
}

/// Writes a list as it is read, and then taken apart.
fn put_list(out: &mut String, items: Vec<Frac>) -> Result<(), CaseFault> {
    let list = Fracs::from_vec(items);
    let read = put_shown(out, &Numbers(list.as_slice()));
    let items = list.into_vec();
    put_items(out, read, &items)
}

/// Writes the items of a list, once it has been written as it is read.
fn put_items(
    out: &mut String,
    read: Result<(), CaseFault>,
    items: &[Frac],
) -> Result<(), CaseFault> {
    read?;
    Ok(write!(out, ", {}", Numbers(items))?)
}

/// Writes whether a condition holds, or both of its sides.
fn put_checked(out: &mut String, checked: Result<(), SlopeStop>) -> Result<(), CaseFault> {
    match checked {
        Ok(()) => put_word(out, "holds"),
        Err(stop) => put_stop(out, stop),
    }
}

/// Writes what comes of the condition that two numbers, as `1 3`, are equal.
fn put_equal(out: &mut String, entry: &str, text: &str) -> Result<(), CaseFault> {
    match text.split_once(' ') {
        Some((a, b)) => put_checked(out, check_equal(count(entry)?, fraction(a)?, fraction(b)?)),
        None => Err(CaseFault::Unreadable),
    }
}

/// Writes what comes of the conditions that weights are at least 0.
fn put_weighed(
    alloc: Global,
    entry: &str,
    weights: &str,
    out: &mut String,
) -> Result<(), CaseFault> {
    let entry = count(entry)?;
    put_checked(out, check_weights(entry, &numbers(alloc, weights)?))
}
