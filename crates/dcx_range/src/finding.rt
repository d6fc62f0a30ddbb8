//! The range of a parameter at a setting.
ghost use Rattle.std.specs.Prelude.{◌≡◌, ℕ, ◌+◌, ◌<◌, ◌≤◌, length, Ok, IfOk, IfErr};
ghost use Rattle.std.specs.List.{All};
ghost use Rattle.dcx_tree.specs.Meaning.{IsFitting, setting_of};
ghost use Rattle.dcx_simplex.specs.Readable.{IsReadable};
ghost use Rattle.dcx_chained.specs.Tables.{table_of};
ghost use Rattle.dcx_graph.specs.Fixed.{HaveArrays};
ghost use Rattle.dcx_graph.specs.Fixing.{FixGives};
ghost use Rattle.dcx_range.specs.Coefficients.{HasConstants};
ghost use Rattle.dcx_range.specs.Operations.{slope_of, constant_of, finished, operations};
ghost use Rattle.dcx_range.specs.Parameters.{IsRanged};
ghost use Rattle.dcx_right.specs.Ranges.{IsNumber, HoldsOn};
ghost use Rattle.dcx_range.specs.Stops.{StopsAt, IsOfRun, IsToldAs};
ghost use Rattle.dcx_range.specs.Range.{IsMapOf, IsAsked, RangeGives};

use crate::asked::Asked;
use crate::ends::{all_ends, change, sign_ends};
use crate::rates::{Rate, coefficient_of, rates};
use crate::told::place_of;
use dcx_answer::{RangeStop, Ranged};
use dcx_frac::{Frac, Passes};
use dcx_graph::Reduced;
use dcx_linear::ParamForm;
use dcx_lp_answer::LpStatus;
use dcx_lp_solve::{SolveStop, Solved, solve_rows};
use dcx_point::Setting;
use dcx_shape::Name;
use dcx_std::integer;
use dcx_tab::Tableau;
use dcx_tree::Problem;
use std::alloc::Global;

/// How the value changes for one unit of the parameter, where the constant of the objective changes by the coefficient.
fn slope<T: Tableau>(tableau: &T, rates: &[Rate], coefficient: Frac) -> Result<Frac, Passes>
    requires readable { IsReadable (T.table tableau.now) }
    requires columns { All (λ h. h.column < (T.table tableau.now).columns + 3) rates.now }
    ensures { (n : ℕ) → n + 2 ≡ length (T.table tableau.now).rows → result ≡ slope_of (T.table tableau.now) rates.now n coefficient }
{
    let row = tableau.rows();
    match change(tableau, row, rates) {
        Ok(change) => {
            let lead = integer(tableau.entry(row, tableau.columns()));
            match Frac::div(change, lead) {
                Ok(quotient) => Frac::add(quotient, coefficient),
                Err(passes) => Err(passes),
            }
        }
        Err(passes) => Err(passes),
    }
}

/// The value where the parameter is 0.
fn constant(number: Frac, slope: Frac, at: Frac) -> Result<Frac, Passes>
    ensures { result ≡ constant_of number slope at }
{
    match Frac::mul(slope, at) {
        Ok(product) => Frac::sub(number, product),
        Err(passes) => Err(passes),
    }
}

/// The span, where the right sides of the first rows change so, and the constant of the objective by the coefficient.
fn formed<T: Tableau>(
    tableau: &T,
    rates: &[Rate],
    coefficient: Frac,
    asked: &Asked,
    number: Frac,
) -> Result<Ranged, Passes>
    requires readable { IsReadable (T.table tableau.now) }
    requires columns { All (λ h. h.column < (T.table tableau.now).columns + 3) rates.now }
    ensures { (n : ℕ) → n + 2 ≡ length (T.table tableau.now).rows → result ≡ finished (T.table tableau.now) rates.now n coefficient asked.now number }
{
    let ends = match all_ends(tableau, rates, asked.at) {
        Ok(ends) => ends,
        Err(passes) => return Err(passes),
    };
    let slope = match slope(tableau, rates, coefficient) {
        Ok(slope) => slope,
        Err(passes) => return Err(passes),
    };
    match constant(number, slope, asked.at) {
        Ok(constant) => {
            let ends = sign_ends(asked.attribute, ends);
            Ok(Ranged::Span {
                low: ends.low,
                high: ends.high,
                constant,
                slope,
            })
        }
        Err(passes) => Err(passes),
    }
}

/// The span that the last basis of an optimal run shows.
///
/// `RangeWide` where an operation passes 128 bits: the first one.
fn span(
    alloc: Global,
    map: &Reduced<ParamForm>,
    solved: &Solved,
    asked: &Asked,
) -> Result<Ranged, RangeStop>
    requires rows { length map.now.program.rows ≤ length solved.now.program.rows }
    requires count { length (table_of solved.now.tableau).rows ≡ length solved.now.program.rows + 2 }
    requires columns { (table_of solved.now.tableau).columns ≡ length solved.now.program.columns }
    requires readable { IsReadable (table_of solved.now.tableau) }
    ensures formed { IfOk result (λ a. operations
        (table_of solved.now.tableau) solved.now.program.rows map.now.program.rows map.now.program.objective.constant asked.now solved.now.answer.number ≡ Ok a) }
    ensures rising { IfOk result (λ a. HasConstants map.now.program) }
    ensures stops { IfErr result (StopsAt
        (operations (table_of solved.now.tableau) solved.now.program.rows map.now.program.rows map.now.program.objective.constant asked.now solved.now.answer.number)) }
{
    let rows = map.rows();
    let rates = match rates(
        alloc,
        rows.rows.as_slice(),
        solved.program.rows.as_slice(),
        asked.position,
    ) {
        Ok(rates) => rates,
        Err(stop) => return Err(stop),
    };
    let coefficient = coefficient_of(&rows.objective.constant, asked.position);
    match formed(
        &solved.tableau,
        &rates,
        coefficient,
        asked,
        solved.answer.number,
    ) {
        Ok(span) => Ok(span),
        Err(passes) => Err(RangeStop::RangeWide(passes)),
    }
}

/// Why the rows aren't solved, which aren't too many.
fn run_stop(stop: SolveStop) -> RangeStop
    requires { IsOfRun stop }
    ensures { IsToldAs stop result }
{
    match stop {
        SolveStop::Wide(site) => RangeStop::Wide(site),
        SolveStop::PivotLimit { count } => RangeStop::PivotLimit { count },
        SolveStop::Memory => RangeStop::Memory,
        SolveStop::TooLarge { .. } => unreachable!(),
    }
}

/// What is asked of the parameter with this name at a setting.
fn asked(problem: &Problem, setting: &Setting, name: &Name) -> Asked
    requires number { IsNumber problem.now name.now }
    requires arrays { HaveArrays problem.now setting.now }
    ensures { IsAsked problem.now setting.now name.now result }
{
    let parameters = problem.parameters.as_slice();
    let Some(position) = place_of(parameters, name) else {
        unreachable!()
    };
    let Some(array) = setting.get(name) else {
        unreachable!()
    };
    let parameter = &parameters[position];
    Asked {
        position,
        attribute: parameter.attribute,
        at: array.entries.as_slice()[0],
    }
}

/// The range of the parameter with this name at a setting: the values that it may have, where all other parameters stay, while the
/// basis of the run at the setting stays optimal, and the value of the problem along them.
///
/// `Infeasible` and `Unbounded` where the run at the setting ends so. `Wide` and `PivotLimit` are the stops of that run, and
/// `RangeWide` is the first operation of the range that passes 128 bits. `Memory` where there is none.
pub fn range(
    alloc: Global,
    problem: &Problem,
    map: &Reduced<ParamForm>,
    program: &Reduced<Frac>,
    setting: &Setting,
    name: &Name,
    limit: u64,
) -> Result<Ranged, RangeStop>
    requires map { IsMapOf problem.now map.now.program }
    requires fits { IsFitting problem.now setting.now }
    requires program { FixGives setting.now map.now.program (Ok program.now.program) }
    requires ranged { IsRanged problem.now map.now.program name.now }
    ensures given { RangeGives problem.now map.now.program program.now.program setting.now name.now limit result }
    ensures optimal { IfOk result (HoldsOn problem.now (setting_of problem.now setting.now) name.now) }
{
    let solved = match solve_rows(alloc, program.rows(), limit) {
        Ok(solved) => solved,
        Err(stop) => return Err(run_stop(stop)),
    };
    match solved.answer.status {
        LpStatus::Optimal => {
            let told = span(alloc, map, &solved, &asked(problem, setting, name));
            drop(solved);
            told
        }
        LpStatus::Infeasible => {
            drop(solved);
            Ok(Ranged::Infeasible)
        }
        LpStatus::Unbounded => {
            drop(solved);
            Ok(Ranged::Unbounded)
        }
    }
}
