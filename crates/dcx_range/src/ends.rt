//! The ends of a range.
ghost use Rattle.std.specs.Prelude.{◌≡◌, ◌≢◌, ℕ, ◌+◌, ◌<◌, length, pos};
ghost use Rattle.std.specs.List.{All};
ghost use Rattle.dcx_math.specs.Rational.{whole};
ghost use Rattle.dcx_frac.specs.Frac.{value};
ghost use Rattle.dcx_range.specs.Operations.{change_at, greater, lesser, from_on, up_to, with_end, zero_of, row_ends, next_ends, ends_from, no_ends, sign_ends};

use crate::numbers::{is_nonpos, is_zero, zero};
use crate::rates::Rate;
use dcx_atom::{add_product, is_at_most};
use dcx_call::Attribute;
use dcx_frac::{Frac, Passes};
use dcx_std::integer;
use dcx_tab::Tableau;

/// The ends of a range so far.
#[derive(Clone, Copy)]
pub(crate) struct Ends {
    /// The greatest lower end.
    pub(crate) low: Option<Frac>,
    /// The least upper end.
    pub(crate) high: Option<Frac>,
}

/// The greater of a number and the lower end so far.
fn greater(end: Option<Frac>, x: Frac) -> Frac
    ensures { result ≡ greater end x }
{
    match end {
        None => x,
        Some(y) => { if is_at_most(&x, &y) { y } else { x } }
    }
}

/// The lesser of a number and the upper end so far.
fn lesser(end: Option<Frac>, x: Frac) -> Frac
    ensures { result ≡ lesser end x }
{
    match end {
        None => x,
        Some(y) => { if is_at_most(&y, &x) { y } else { x } }
    }
}

/// No ends.
pub(crate) fn no_ends() -> Ends
    ensures { result ≡ no_ends }
{
    Ends {
        low: None,
        high: None,
    }
}

/// The ends with a lower end besides.
fn from_on(x: Frac, ends: Ends) -> Ends
    ensures { result ≡ from_on x ends }
{
    Ends {
        low: Some(greater(ends.low, x)),
        high: ends.high,
    }
}

/// The ends with an upper end besides.
fn up_to(x: Frac, ends: Ends) -> Ends
    ensures { result ≡ up_to x ends }
{
    Ends {
        low: ends.low,
        high: Some(lesser(ends.high, x)),
    }
}

/// The ends with the one that the sign of a parameter gives besides.
pub(crate) fn sign_ends(attribute: Attribute, ends: Ends) -> Ends
    ensures { result ≡ sign_ends attribute ends }
{
    match attribute {
        Attribute::Nonneg => from_on(zero(), ends),
        Attribute::Nonpos => up_to(zero(), ends),
        Attribute::Free | Attribute::Symmetric | Attribute::Diag => ends,
    }
}

/// How the right side of row `i` changes, where the right sides of the first rows change so.
///
/// `Passes` where an operation passes 128 bits: the first one.
pub(crate) fn change<T: Tableau>(tableau: &T, i: u32, rates: &[Rate]) -> Result<Frac, Passes>
    requires row { i < length (T.table tableau.now).rows }
    requires columns { All (λ h. h.column < (T.table tableau.now).columns + 3) rates.now }
    ensures { result ≡ change_at (T.table tableau.now) i rates.now }
{
    let mut sum = zero();
    'rates: for rate in rates {
        let entry = integer(tableau.entry(i, rate.column));
        match add_product(sum, rate.change, entry) {
            Ok(next) => sum = next,
            Err(passes) => return Err(passes),
        }
    }
    Ok(sum)
}

/// Where a right side that changes so becomes 0.
fn zero_of(at: Frac, right: Frac, change: Frac) -> Result<Frac, Passes>
    requires { value change ≢ whole (pos 0) }
    ensures { result ≡ zero_of at right change }
{
    match Frac::div(right, change) {
        Ok(quotient) => Frac::sub(at, quotient),
        Err(passes) => Err(passes),
    }
}

/// The ends with one at `x` besides: a lower one where the right side rises.
fn with_end(change: Frac, x: Frac, ends: Ends) -> Ends
    ensures { result ≡ with_end change x ends }
{
    if is_nonpos(change) {
        up_to(x, ends)
    } else {
        from_on(x, ends)
    }
}

/// The ends that row `i` gives besides, whose right side changes so.
fn row_ends<T: Tableau>(
    tableau: &T,
    i: u32,
    at: Frac,
    change: Frac,
    ends: Ends,
) -> Result<Ends, Passes>
    requires { i + 2 < length (T.table tableau.now).rows }
    ensures { result ≡ row_ends (T.table tableau.now) i at change ends }
{
    if is_zero(change) {
        return Ok(ends);
    }
    if tableau.plain() <= tableau.basis(i) {
        return Ok(up_to(at, from_on(at, ends)));
    }
    let right = integer(tableau.entry(i, tableau.columns() + 2));
    match zero_of(at, right, change) {
        Ok(end) => Ok(with_end(change, end, ends)),
        Err(passes) => Err(passes),
    }
}

/// The ends that row `i` gives besides, where the right sides of the first rows change so.
fn next_ends<T: Tableau>(
    tableau: &T,
    i: u32,
    rates: &[Rate],
    at: Frac,
    ends: Ends,
) -> Result<Ends, Passes>
    requires row { i + 2 < length (T.table tableau.now).rows }
    requires columns { All (λ h. h.column < (T.table tableau.now).columns + 3) rates.now }
    ensures { result ≡ next_ends (T.table tableau.now) rates.now at i ends }
{
    match change(tableau, i, rates) {
        Ok(change) => row_ends(tableau, i, at, change, ends),
        Err(passes) => Err(passes),
    }
}

/// The ends that the rows give, where the right sides of the first rows change so and the parameter's value is `at`.
///
/// `Passes` where an operation passes 128 bits: the first one.
pub(crate) fn all_ends<T: Tableau>(tableau: &T, rates: &[Rate], at: Frac) -> Result<Ends, Passes>
    requires { All (λ h. h.column < (T.table tableau.now).columns + 3) rates.now }
    ensures { (n : ℕ) → n + 2 ≡ length (T.table tableau.now).rows → result ≡ ends_from (T.table tableau.now) rates.now at 0 n no_ends }
{
    let mut ends = no_ends();
    let count = tableau.rows();
    'each: for i in 0..count {
        match next_ends(tableau, i, rates, at, ends) {
            Ok(next) => ends = next,
            Err(passes) => return Err(passes),
        }
    }
    Ok(ends)
}
