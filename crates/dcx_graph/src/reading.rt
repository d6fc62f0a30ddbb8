//! From an answer of the rows back to the problem.
ghost use Rattle.std.specs.Prelude.{◌≡◌, ◌<◌, ◌≤◌, ◌^◌, List, length, sum_by, IfOk, IfErr};
ghost use Rattle.dcx_linear.specs.declared.row.UnknownKind.{UnknownKind};
ghost use Rattle.dcx_lp_answer.specs.declared.answer.LpStatus.TheVariants as status;
ghost use Rattle.dcx_unknowns.specs.Layout.{constraint_rows};
ghost use Rattle.dcx_tree.specs.Meaning.{setting_of};
ghost use Rattle.dcx_postsolve.specs.Duals.{AreDuals};
ghost use Rattle.dcx_graph.specs.Answers.{IsAnswered, TellUnknowns, CanBeRead, IsPointRead, IsRead, StopsReading, answer_stop};
ghost use Rattle.dcx_postsolve.specs.Answers.{IsRightFor};

use crate::reduced::Reduced;
use dcx_answer::{Answer, Duals, Site};
use dcx_frac::Frac;
use dcx_linear::UnknownKind;
use dcx_lp_answer::{LpAnswer, LpStatus, MultiplierStop};
use dcx_point::{Point, Setting};
use dcx_postsolve::{duals_of, point_of_unknowns, unknown_numbers};
use dcx_tree::Problem;
use std::alloc::{AllocError, Global};
use thiserror::Error;

/// Why an answer of the rows isn't read.
#[derive(Clone, Copy, Debug, Error)]
pub enum AnswerStop {
    /// The multiplier of a row of a constraint passes 128 bits, the first one.
    #[error("a multiplier passes 128 bits")]
    Wide(Site),
    /// No memory.
    #[error("out of memory")]
    Memory,
}

impl From<AllocError> for AnswerStop {
    ghost use Rattle.std.specs.Prelude.{◌≡◌};
    ghost use Rattle.dcx_graph.specs.declared.reading.AnswerStop.TheVariants.{Memory};

    ghost from_gives = { λ _ e. e ≡ Memory };

    fn from(_: AllocError) -> Self {
        AnswerStop::Memory
    }
}

/// The stop at a multiplier.
fn answer_stop(stop: MultiplierStop) -> AnswerStop
    ensures { result ≡ answer_stop stop }
{
    match stop {
        MultiplierStop::Wide { row, passes } => AnswerStop::Wide(Site::Answer { row, passes }),
        MultiplierStop::Memory => AnswerStop::Memory,
    }
}

/// The point of the unknowns whose columns have these numbers: an array for each variable, in order of declaration. `AllocError`
/// where there is no memory.
pub fn point_read(
    alloc: Global,
    problem: &Problem,
    kinds: &[UnknownKind],
    columns: &[Frac],
) -> Result<Point, AllocError>
    requires told { TellUnknowns kinds.now columns.now }
    ensures { IfOk result (λ x. IsPointRead problem.now kinds.now columns.now x) }
{
    let unknowns = unknown_numbers(alloc, kinds, columns)?;
    point_of_unknowns(alloc, problem, unknowns.as_slice())
}

/// The multipliers of the constraints, where they are formed.
fn duals_read(alloc: Global, problem: &Problem, answer: &LpAnswer) -> Result<Duals, AnswerStop>
    requires formed { ¬ (answer.now.status ≡ status.Unbounded) }
    requires rows { sum_by constraint_rows problem.now.constraints ≤ length answer.now.rows }
    requires few { length answer.now.rows < 2 ^ 32 }
    ensures made { IfOk result (λ d. AreDuals answer.now.status problem.now.constraints answer.now.rows d) }
    ensures stops { IfErr result (StopsReading problem.now answer.now) }
{
    match duals_of(alloc, problem.constraints.as_slice(), answer) {
        Ok(duals) => Ok(duals),
        Err(stop) => Err(answer_stop(stop)),
    }
}

/// What is read where the rows have a least cost.
fn optimal(
    alloc: Global,
    problem: &Problem,
    kinds: &[UnknownKind],
    answer: &LpAnswer,
) -> Result<Answer, AnswerStop>
    requires status { answer.now.status ≡ status.Optimal }
    requires there { CanBeRead problem.now kinds.now answer.now }
    ensures read { IfOk result (IsRead problem.now kinds.now answer.now) }
    ensures stops { IfErr result (StopsReading problem.now answer.now) }
{
    let duals = duals_read(alloc, problem, answer)?;
    match point_read(alloc, problem, kinds, answer.columns.as_slice()) {
        Ok(point) => Ok(Answer::Optimal {
            value: answer.number,
            point,
            duals,
        }),
        Err(_) => {
            drop(duals);
            Err(AnswerStop::Memory)
        }
    }
}

/// What is read where the rows can't be solved.
fn infeasible(alloc: Global, problem: &Problem, answer: &LpAnswer) -> Result<Answer, AnswerStop>
    requires status { answer.now.status ≡ status.Infeasible }
    requires rows { sum_by constraint_rows problem.now.constraints ≤ length answer.now.rows }
    requires few { length answer.now.rows < 2 ^ 32 }
    ensures read { (kinds : List UnknownKind) → IfOk result (IsRead problem.now kinds answer.now) }
    ensures stops { IfErr result (StopsReading problem.now answer.now) }
{
    let duals = duals_read(alloc, problem, answer)?;
    Ok(Answer::Infeasible {
        duals,
        gap: answer.number,
    })
}

/// What is read where the cost falls without end.
fn unbounded(
    alloc: Global,
    problem: &Problem,
    kinds: &[UnknownKind],
    answer: &LpAnswer,
) -> Result<Answer, AllocError>
    requires status { answer.now.status ≡ status.Unbounded }
    requires there { CanBeRead problem.now kinds.now answer.now }
    ensures read { IfOk result (IsRead problem.now kinds.now answer.now) }
{
    let point = point_read(alloc, problem, kinds, answer.columns.as_slice())?;
    match point_read(alloc, problem, kinds, answer.ray.as_slice()) {
        Ok(ray) => Ok(Answer::Unbounded {
            point,
            ray,
            bound: answer.number,
            slope: answer.slope,
        }),
        Err(stop) => {
            drop(point);
            Err(stop)
        }
    }
}

/// What is read from an answer of rows over unknowns of these kinds.
fn read(
    alloc: Global,
    problem: &Problem,
    kinds: &[UnknownKind],
    answer: &LpAnswer,
) -> Result<Answer, AnswerStop>
    requires there { CanBeRead problem.now kinds.now answer.now }
    ensures read { IfOk result (IsRead problem.now kinds.now answer.now) }
    ensures stops { IfErr result (StopsReading problem.now answer.now) }
{
    match answer.status {
        LpStatus::Optimal => optimal(alloc, problem, kinds, answer),
        LpStatus::Infeasible => infeasible(alloc, problem, answer),
        LpStatus::Unbounded => Ok(unbounded(alloc, problem, kinds, answer)?),
    }
}

/// The answer to the problem at the setting that an answer of the rows of its reduced program shows: the value, gap, bound and
/// slope as they stand, the point and the ray by the numbers of the columns, and the multipliers of the rows of the constraints.
/// The point and the ray have all entries of each variable.
///
/// `Wide` exactly where a multiplier of a row of a constraint passes 128 bits: at the first one, with its row and its first
/// operation that passes. Where the objective falls for ever no multiplier is formed.
pub fn map_back(
    alloc: Global,
    problem: &Problem,
    setting: &Setting,
    reduced: &Reduced<Frac>,
    answer: &LpAnswer,
) -> Result<Answer, AnswerStop>
    requires answered { IsAnswered problem.now (setting_of problem.now setting.now) reduced.now.program answer.now }
    ensures read { IfOk result (IsRead problem.now reduced.now.program.kinds answer.now) }
    ensures right { IfOk result (IsRightFor problem.now (setting_of problem.now setting.now)) }
    ensures stops { IfErr result (StopsReading problem.now answer.now) }
{
    read(alloc, problem, reduced.rows().kinds.as_slice(), answer)
}
