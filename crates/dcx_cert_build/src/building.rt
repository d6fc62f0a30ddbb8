//! Builds the certificate of an answer.
ghost use Rattle.std.specs.Prelude.{◌≡◌, ◌<◌, ◌^◌, length, Some, Ok, IfOk, IfErr};
ghost use Rattle.dcx_tree.specs.Meaning.{setting_of};
ghost use Rattle.dcx_lp_answer.specs.declared.answer.LpStatus.TheVariants as status;
ghost use Rattle.dcx_answer.specs.declared.answer.Answer.TheVariants as answers;
ghost use Rattle.dcx_cert_sections.specs.declared.cert.Cert.TheVariants.{Unbounded};
ghost use Rattle.dcx_cert_sections.specs.declared.section.Format.TheVariants.{Two};
ghost use Rattle.dcx_cert_sections.specs.Formats.{IsOfFormat};
ghost use Rattle.dcx_cert_sections.specs.Shown.{IsCertOf};
ghost use Rattle.dcx_cert_outline.specs.Drawn.{problem_outline};
ghost use Rattle.dcx_graph.specs.Fixed.{HaveArrays};
ghost use Rattle.dcx_graph.specs.Answers.{IsAnswered, IsRead};
ghost use Rattle.dcx_cert_build.specs.Origins.{IsLaidOut};
ghost use Rattle.dcx_cert_build.specs.Built.{values_in, IsBuilt, StopsBuilding};

use crate::copies::{copy_duals, values_of};
use crate::weights::weights_of;
use dcx_answer::{Answer, Duals};
use dcx_cert_sections::Cert;
use dcx_frac::Frac;
use dcx_graph::{AnswerStop, Reduced};
use dcx_lp_answer::LpAnswer;
use dcx_point::{Point, Setting};
use dcx_tree::Problem;
use std::alloc::{AllocError, Global};

/// What is made, beside what was made before.
fn beside<T: Drop, U: Drop>(made: T, next: Result<U, AllocError>) -> Result<(T, U), AllocError>
    ensures { IfOk result (λ r. (r.0 ≡ made) × (next ≡ Ok r.1)) }
{
    match next {
        Ok(next) => Ok((made, next)),
        Err(stop) => Err(stop),
    }
}

/// The certificate of an optimal answer.
fn optimal(
    alloc: Global,
    problem: &Problem,
    setting: &Setting,
    value: Frac,
    point: &Point,
    duals: &Duals,
    reduced: &Reduced<Frac>,
    lp: &LpAnswer,
) -> Result<Cert, AnswerStop>
    requires noted { length lp.now.rows ≡ length reduced.now.program.rows }
    requires few { length lp.now.rows < 2 ^ 32 }
    requires formed { ¬ (lp.now.status ≡ status.Unbounded) }
    ensures built { IfOk result (IsBuilt problem.now setting.now reduced.now.program.origins lp.now (answers.Optimal value point.now duals.now)) }
    ensures stops { IfErr result (StopsBuilding problem.now reduced.now.program.origins lp.now) }
{
    let weights = weights_of(alloc, problem, reduced, lp)?;
    let (weights, point) = beside(weights, point.copy(alloc))?;
    let (made, duals) = beside((weights, point), copy_duals(alloc, duals))?;
    let ((weights, point), (duals, values)) = beside(
        made,
        beside(duals, values_of(alloc, problem, setting)),
    )?;
    Ok(Cert::Optimal {
        value,
        point,
        duals,
        weights,
        params: Some(values),
    })
}

/// The certificate of an infeasible one.
fn infeasible(
    alloc: Global,
    problem: &Problem,
    setting: &Setting,
    duals: &Duals,
    gap: Frac,
    reduced: &Reduced<Frac>,
    lp: &LpAnswer,
) -> Result<Cert, AnswerStop>
    requires noted { length lp.now.rows ≡ length reduced.now.program.rows }
    requires few { length lp.now.rows < 2 ^ 32 }
    requires formed { ¬ (lp.now.status ≡ status.Unbounded) }
    ensures built { IfOk result (IsBuilt problem.now setting.now reduced.now.program.origins lp.now (answers.Infeasible duals.now gap)) }
    ensures stops { IfErr result (StopsBuilding problem.now reduced.now.program.origins lp.now) }
{
    let weights = weights_of(alloc, problem, reduced, lp)?;
    let (weights, duals) = beside(weights, copy_duals(alloc, duals))?;
    let ((weights, duals), values) = beside((weights, duals), values_of(alloc, problem, setting))?;
    Ok(Cert::Infeasible {
        duals,
        gap,
        weights,
        params: Some(values),
    })
}

/// The certificate of an answer that is not bounded.
fn unbounded(
    alloc: Global,
    problem: &Problem,
    setting: &Setting,
    point: &Point,
    ray: &Point,
    bound: Frac,
    slope: Frac,
) -> Result<Cert, AllocError>
    ensures { IfOk result (λ c. c ≡ Unbounded point.now ray.now bound slope (Some (values_in problem.now setting.now))) }
{
    let point = point.copy(alloc)?;
    let (point, ray) = beside(point, ray.copy(alloc))?;
    let ((point, ray), values) = beside((point, ray), values_of(alloc, problem, setting))?;
    Ok(Cert::Unbounded {
        point,
        ray,
        bound,
        slope,
        params: Some(values),
    })
}

/// The certificate of an answer to a problem at a setting, which `map_back` reads from the answer of the rows of a reduced program
/// of the problem: the numbers of the answer as they stand, the array that the setting gives each parameter, in order of
/// declaration, and for each atom that has a variable below it the multipliers of the rows of its graph, by result entry and row.
/// Of atoms that have none no weight is formed, though the program may have their rows.
///
/// `Wide` exactly where one of these multipliers passes 128 bits: the first one in the order of the rows, with its row and its first
/// operation that passes. Where the objective falls for ever there are none. `Memory` where there is none.
pub fn build(
    alloc: Global,
    problem: &Problem,
    setting: &Setting,
    answer: &Answer,
    reduced: &Reduced<Frac>,
    lp: &LpAnswer,
) -> Result<Cert, AnswerStop>
    requires given { HaveArrays problem.now setting.now }
    requires laid_out { IsLaidOut problem.now reduced.now.program }
    requires answered { IsAnswered problem.now (setting_of problem.now setting.now) reduced.now.program lp.now }
    requires read { IsRead problem.now reduced.now.program.kinds lp.now answer.now }
    ensures built { IfOk result (IsBuilt problem.now setting.now reduced.now.program.origins lp.now answer.now) }
    ensures of_problem { IfOk result (IsCertOf (problem_outline problem.now)) }
    ensures format { IfOk result (IsOfFormat Two) }
    ensures stops { IfErr result (StopsBuilding problem.now reduced.now.program.origins lp.now) }
{
    match answer {
        Answer::Optimal {
            value,
            point,
            duals,
        } => optimal(alloc, problem, setting, *value, point, duals, reduced, lp),
        Answer::Infeasible { duals, gap } => infeasible(
            alloc, problem, setting, duals, *gap, reduced, lp,
        ),
        Answer::Unbounded {
            point,
            ray,
            bound,
            slope,
        } => Ok(unbounded(alloc, problem, setting, point, ray, *bound, *slope)?),
    }
}
