//! How the right sides of the rows change with a parameter.
ghost use Rattle.std.specs.Prelude.{◌≡◌, ◌≤◌, length, Ok, IfOk, IfErr};
ghost use Rattle.std.specs.List.{All};
ghost use Rattle.dcx_linear.specs.ParamTerms.{HoldsTerms};
ghost use Rattle.dcx_range.specs.Coefficients.{coefficient_of};
ghost use Rattle.dcx_range.specs.Operations.{rate_of, rates_of};
ghost use Rattle.dcx_std.specs.WholeRows.{opposite, turned_frac};
ghost use Rattle.dcx_range.specs.Stops.{StopsAt};

use crate::numbers::zero;
use dcx_answer::RangeStop;
use dcx_frac::{Frac, Passes};
use dcx_linear::{ParamForm, Row};
use dcx_tab::IntRow;
use std::alloc::Global;

/// How the right side of a row of the scaled program changes.
#[derive(Clone, Copy)]
pub(crate) struct Rate {
    /// The row's first basic column: a row of a tableau has there how much of this row it is made of.
    pub(crate) column: u32,
    /// The change of the right side for one unit of the parameter.
    pub(crate) change: Frac,
}

/// The coefficient of the parameter at this position, which has one entry; 0 where it isn't listed.
pub(crate) fn coefficient_of(number: &ParamForm, position: usize) -> Frac
    ensures value { result ≡ coefficient_of position number.now }
    ensures rising { HoldsTerms number.now.terms }
{
    'terms: for term in number.terms.as_slice() {
        if term.position as usize == position {
            return term.coefficient;
        }
    }
    zero()
}

/// The number with its sign turned.
fn opposite(number: Frac) -> Frac
    ensures { result ≡ opposite number }
{
    number.neg()
}

/// The number, with its sign turned where the test holds.
fn turned(is_negated: bool, number: Frac) -> Frac
    ensures { result ≡ turned_frac is_negated number }
{
    if is_negated { opposite(number) } else { number }
}

/// How the right side of an integer row changes, where its row has this constant.
fn rate_of(constant: &ParamForm, int: &IntRow, position: usize) -> Result<Rate, Passes>
    ensures rate { result ≡ rate_of position constant.now int.now }
    ensures rising { HoldsTerms constant.now.terms }
{
    let factor = turned(int.negated, int.factor);
    let coefficient = coefficient_of(constant, position);
    let negated = opposite(coefficient);
    match Frac::mul(factor, negated) {
        Ok(change) => Ok(Rate {
            column: int.basic,
            change,
        }),
        Err(passes) => Err(passes),
    }
}

/// How the right sides of the integer rows change, in order.
///
/// `RangeWide` where an operation passes 128 bits: the first one.
pub(crate) fn rates(
    alloc: Global,
    rows: &[Row<ParamForm>],
    ints: &[IntRow],
    position: usize,
) -> Result<Vec<Rate>, RangeStop>
    requires { length rows.now ≤ length ints.now }
    ensures formed { IfOk result (λ hs. rates_of position rows.now ints.now ≡ Ok hs.items) }
    ensures rising { IfOk result (λ hs. All (λ row. HoldsTerms row.form.constant.terms) rows.now) }
    ensures stops { IfErr result (StopsAt (rates_of position rows.now ints.now)) }
{
    let mut rates = Vec::with_capacity(alloc, rows.len())?;
    'rows: for (i, row) in rows.iter().enumerate() {
        match rate_of(&row.form.constant, &ints[i], position) {
            Ok(rate) => rates.push(rate)?,
            Err(passes) => return Err(RangeStop::RangeWide(passes)),
        }
    }
    Ok(rates)
}
