//! Rows of whole numbers: each row of fractions is multiplied and divided until its numbers are whole and in lowest terms.
ghost use Rattle.std.specs.Prelude.{◌≡◌, ◌≤◌, ◌<◌, ◌^◌, ◌++◌, map, Ok, pos, ◌<ℤ◌, unsigned_abs, IfOk};
ghost use Rattle.std.specs.List.{range_with_len};
ghost use Rattle.dcx_math.specs.Rational.{whole, ◌/ℚ◌};
ghost use Rattle.dcx_math.specs.Divisors.{gcd_of, divided};
ghost use Rattle.dcx_math.specs.Rising.{IsRising};
ghost use Rattle.dcx_frac.specs.Frac.{num_of};
ghost use Rattle.dcx_frac.specs.Results.{product_of};
ghost use Rattle.dcx_atom.specs.Formed.{frac_at, and_then};
ghost use Rattle.dcx_linear.specs.FormTerms.{unknown_of};
ghost use Rattle.dcx_linear.specs.Stops.{Gives, GivesBy};
ghost use Rattle.dcx_linear.specs.Widths.{form_width, terms_width};
ghost use Rattle.dcx_std.specs.WholeRows.{coefficients, opposite, turned_frac, product_with, numerators, divisor_of, whole_row_of, row_made, cost_made, IsSparseForm};

use crate::multiple::{least_multiple, whole_number};
use dcx_frac::{Frac, gcd};
use dcx_linear::{CoefStop, Form, FormTerm, Row, RowKind};
use dcx_tab::Ints;
use std::alloc::{AllocError, Global};

/// A row of whole numbers, and by what a row of fractions was multiplied to get it.
#[derive(Drop)]
pub(crate) struct WholeRow {
    /// How the row's form stood to 0.
    pub(crate) kind: RowKind,
    /// The number of each unknown, the right side, and in the objective row the entry of z.
    pub(crate) numbers: Ints,
    /// What the row of fractions was multiplied by.
    pub(crate) factor: Frac,
}

/// The number with its sign turned.
fn negative(number: &Frac) -> Frac
    ensures { result ≡ opposite number.now }
{
    number.neg()
}

/// The number, or the number with its sign turned.
fn turned_fraction(is_turned: bool, number: &Frac) -> Frac
    ensures { result ≡ turned_frac is_turned number.now }
{
    if is_turned { negative(number) } else { *number }
}

/// The upper part of a fraction.
pub(crate) fn numerator(number: Frac) -> i128
    ensures value { result ≡ num_of number }
    ensures small { unsigned_abs result < 2 ^ 127 }
{
    number.num()
}

/// The products with the coefficients of so many unknowns, or with the opposites; they are whole. An unknown that isn't listed
/// has 0, and a product with 0 isn't formed.
///
/// `Passes` where a product passes 128 bits: the first one.
fn products(
    alloc: Global,
    by: &Frac,
    terms: &[FormTerm<Frac>],
    count: usize,
    is_turned: bool,
) -> Result<Vec<i128>, CoefStop>
    requires known { terms_width terms.now ≤ count }
    requires rising { IsRising unknown_of terms.now }
    ensures { GivesBy result (λ v. v.items) (λ r. r ≡ numerators (map (product_with by.now is_turned terms.now) (range_with_len 0 count))) }
{
    let mut products = vec![in alloc; 0; count]?;
    'terms: for term in terms {
        let product = by.mul(turned_fraction(is_turned, &term.coefficient))?;
        products[term.unknown as usize] = numerator(product);
    }
    Ok(products)
}

/// The products so far, and behind them those with more numbers, which are whole.
///
/// `Passes` where a product passes 128 bits: the first one.
fn more_products(products: Vec<i128>, by: &Frac, numbers: &[Frac]) -> Result<Vec<i128>, CoefStop>
    ensures { GivesBy result (λ v. v.items) (λ r. r ≡ and_then (numerators (map (product_of by.now) numbers.now)) (λ more. Ok (products.items ++ more))) }
{
    let mut products = products;
    'numbers: for number in numbers {
        let product = by.mul(*number)?;
        products.push(numerator(product))?;
    }
    Ok(products)
}

/// The greatest common divisor, looked for until it is 1.
fn common_divisor(numbers: &[i128]) -> u128
    ensures { result ≡ gcd_of numbers.now }
{
    let mut found = 0;
    'numbers: for number in numbers {
        found = gcd(found, number.unsigned_abs());
        if found == 1 {
            return 1;
        }
    }
    found
}

/// What the numbers are divided by: their greatest common divisor, or 1 where all are 0.
fn divisor(numbers: &[i128]) -> u128
    ensures value { result ≡ divisor_of numbers.now }
    ensures positive { 0 < result }
{
    match common_divisor(numbers) {
        0 => 1,
        found => found,
    }
}

/// The number as a signed one.
fn signed(number: u128) -> i128
    requires { number < 2 ^ 127 }
    ensures { result ≡ pos number }
{
    number as i128
}

/// The number divided.
fn quotient(number: i128, by: i128) -> i128
    requires { pos 0 <ℤ by }
    ensures { result ≡ divided (unsigned_abs by) number }
{
    number / by
}

/// The numbers divided.
fn quotients(alloc: Global, numbers: &[i128], by: i128) -> Result<Vec<i128>, AllocError>
    requires { pos 0 <ℤ by }
    ensures { IfOk result (λ v. v.items ≡ map (divided (unsigned_abs by)) numbers.now) }
{
    let mut quotients = Vec::with_capacity(alloc, numbers.len())?;
    'numbers: for number in numbers {
        quotients.push(quotient(*number, by))?;
    }
    Ok(quotients)
}

/// The numbers divided. The usual divisor is 1, and then nothing is to be done.
fn reduced(alloc: Global, numbers: Vec<i128>, by: i128) -> Result<Vec<i128>, AllocError>
    requires { pos 0 <ℤ by }
    ensures { IfOk result (λ v. v.items ≡ map (divided (unsigned_abs by)) numbers.items) }
{
    if by == 1 {
        return Ok(numbers);
    }
    quotients(alloc, &numbers, by)
}

/// The fraction `multiple / divisor`.
fn factor(multiple: i128, divisor: i128) -> Frac
    requires multiple { pos 0 <ℤ multiple }
    requires divisor { pos 0 <ℤ divisor }
    ensures { result ≡ frac_at (whole multiple /ℚ whole divisor) }
{
    match Frac::of(multiple, divisor) {
        Some(factor) => factor,
        None => unreachable!(),
    }
}

/// The row of a form's coefficients, or of their opposites, and of the numbers behind them, made whole: multiplied by the least
/// common multiple of the form's denominators, and then divided by the greatest common divisor of the row.
///
/// `Passes` where a multiple or a product passes 128 bits: the first one.
fn whole_numbers(
    alloc: Global,
    kind: RowKind,
    form: &Form<Frac>,
    count: usize,
    is_turned: bool,
    behind: &[Frac],
) -> Result<WholeRow, CoefStop>
    requires { form_width form.now ≤ count }
    ensures made { Gives result (λ r. r ≡ whole_row_of kind form.now (map (turned_frac is_turned) (coefficients count form.now) ++ behind.now)) }
    ensures sparse { IsSparseForm form.now }
{
    let terms = form.terms.as_slice();
    let multiple = least_multiple(form)?;
    let by = whole_number(multiple);
    let products = products(alloc, &by, terms, count, is_turned)?;
    let numbers = more_products(products, &by, behind)?;
    let divisor = signed(divisor(&numbers));
    let quotients = reduced(alloc, numbers, divisor)?;
    Ok(WholeRow {
        kind,
        numbers: Ints::from_vec(quotients),
        factor: factor(signed(multiple), divisor),
    })
}

/// A row over so many unknowns, made whole, its constant taken to the right: the coefficients, and the right side.
pub(crate) fn whole_row(alloc: Global, row: &Row<Frac>, count: usize) -> Result<WholeRow, CoefStop>
    requires { form_width row.now.form ≤ count }
    ensures made { Gives result (λ r. r ≡ row_made count row.now) }
    ensures sparse { IsSparseForm row.now.form }
{
    let right = negative(&row.form.constant);
    whole_numbers(alloc, row.kind, &row.form, count, false, &[right])
}

/// The row `z - cost = constant` over so many unknowns, made whole: the coefficients, the right side, and the coefficient of z.
pub(crate) fn whole_cost(
    alloc: Global,
    cost: &Form<Frac>,
    count: usize,
) -> Result<WholeRow, CoefStop>
    requires { form_width cost.now ≤ count }
    ensures made { Gives result (λ r. r ≡ cost_made count cost.now) }
    ensures sparse { IsSparseForm cost.now }
{
    let behind = [cost.constant, Frac::one()];
    whole_numbers(alloc, RowKind::Equal, cost, count, true, &behind)
}
