//! The phase 1 row: the sum of the rows that start with an artificial.
ghost use Rattle.std.specs.Prelude.{◌≡◌, ◌<◌, ◌≤◌, ◌^◌, [], ◌∷◌, ◌++◌, ◌-◌, length, map, filter, replicate, pos, unsigned_abs, IfOk, OnOk};
ghost use Rattle.std.specs.List.{All, range_with_len};
ghost use Rattle.dcx_math.specs.Rational.{whole};
ghost use Rattle.dcx_frac.specs.Results.{sum_of};
ghost use Rattle.dcx_atom.specs.Formed.{frac_at};
ghost use Rattle.dcx_linear.specs.Stops.{Gives, GivesBy};
ghost use Rattle.dcx_std.specs.WholeRows.{numerators};
ghost use Rattle.dcx_std.specs.IntegerRows.{number_at, added_number, column_sum, phase_made};
ghost use Rattle.dcx_tab.specs.Rows.{AllSmall};

use crate::whole::numerator;
use dcx_frac::{Frac, Passes};
use dcx_linear::CoefStop;
use dcx_tab::{CostRow, IntRow, Ints};
use std::alloc::{AllocError, Global};

/// The number at a column, and behind the columns the right side.
fn row_number(row: &IntRow, column: usize) -> i128
    requires { column ≤ length row.now.entries }
    ensures { result ≡ number_at column row.now }
{
    match row.entries.as_slice().get(column) {
        Some(number) => *number,
        None => row.right,
    }
}

/// The integer as a fraction.
pub fn integer(number: i128) -> Frac
    requires { unsigned_abs number < 2 ^ 127 }
    ensures { result ≡ frac_at (whole number) }
{
    match Frac::of(number, 1) {
        Some(fraction) => fraction,
        None => unreachable!(),
    }
}

/// The sum with an integer. Most numbers of a row are 0, and a sum with 0 isn't formed.
///
/// `Passes` where the sum passes 128 bits.
fn plus(sum: Frac, number: i128) -> Result<Frac, Passes>
    requires { unsigned_abs number < 2 ^ 127 }
    ensures { result ≡ sum_of sum (frac_at (whole number)) }
{
    if number == 0 {
        return Ok(sum);
    }
    sum.add(integer(number))
}

/// The sum with the number of a row at a column, where the row starts with an artificial.
///
/// `Passes` where the sum passes 128 bits.
fn added(sum: Frac, row: &IntRow, plain: usize, column: usize) -> Result<Frac, Passes>
    requires within { column ≤ length row.now.entries }
    requires small { AllSmall (row.now.entries ++ row.now.right ∷ []) }
    ensures { result ≡ added_number plain column sum row.now }
{
    if plain <= row.basic as usize {
        plus(sum, row_number(row, column))
    } else {
        Ok(sum)
    }
}

/// The sum at a column, or behind the columns at the right side, from 0 over the rows that start with an artificial.
///
/// `Passes` where a sum passes 128 bits: the first one.
fn sum_at(rows: &[IntRow], plain: usize, column: usize) -> Result<Frac, Passes>
    requires within { All (λ r. column ≤ length r.entries) rows.now }
    requires small { All (λ r. AllSmall (r.entries ++ r.right ∷ [])) rows.now }
    ensures { result ≡ column_sum plain rows.now column }
{
    let mut sum = Frac::zero();
    'rows: for row in rows {
        sum = added(sum, row, plain, column)?;
    }
    Ok(sum)
}

/// The sums at the columns that aren't artificial.
fn sums(alloc: Global, rows: &[IntRow], plain: usize) -> Result<Vec<i128>, CoefStop>
    requires within { All (λ r. plain ≤ length r.entries) rows.now }
    requires small { All (λ r. AllSmall (r.entries ++ r.right ∷ [])) rows.now }
    ensures { GivesBy result (λ v. v.items) (λ r. r ≡ numerators (map (column_sum plain rows.now) (range_with_len 0 plain))) }
{
    let mut sums = Vec::with_capacity(alloc, plain)?;
    'columns: for column in 0..plain {
        let sum = sum_at(rows, plain, column)?;
        sums.push(numerator(sum))?;
    }
    Ok(sums)
}

/// Puts so many zeros at the end.
fn push_zeros(entries: &mut Vec<i128>, count: usize) -> Result<(), AllocError>
    ensures { OnOk result (entries.new.items ≡ entries.old.items ++ replicate count (pos 0)) }
{
    'zeros: for _ in 0..count {
        entries.push(0)?;
    }
    Ok(())
}

/// The phase 1 row of rows with so many columns, of which so many aren't artificial.
///
/// `Passes` where a sum passes 128 bits: the first one, column by column, and last at the right side.
pub(crate) fn phase_row(
    alloc: Global,
    rows: &[IntRow],
    plain: usize,
    columns: usize,
) -> Result<CostRow, CoefStop>
    requires plain { plain ≤ columns }
    requires widths { All (λ r. length r.entries ≡ columns) rows.now }
    requires small { All (λ r. AllSmall (r.entries ++ r.right ∷ [])) rows.now }
    ensures { Gives result (λ r. r ≡ phase_made plain columns rows.now) }
{
    let mut entries = sums(alloc, rows, plain)?;
    let right = sum_at(rows, plain, columns)?;
    push_zeros(&mut entries, columns - plain)?;
    Ok(CostRow {
        entries: Ints::from_vec(entries),
        lead: 1,
        right: numerator(right),
    })
}
