//! One step: whether some point keeps the constraints that are kept.
ghost use Rattle.std.specs.Prelude.{◌≡◌, ◌≤◌, length, map, sum_by, IfOk, IfErr};
ghost use Rattle.dcx_unknowns.specs.Layout.{constraint_rows};
ghost use Rattle.dcx_graph.specs.Answers.{TellUnknowns};
ghost use Rattle.dcx_iis.specs.Steps.{flagged};
ghost use Rattle.dcx_iis.specs.Runs.{IsShownBy, IsTried, StopsTry, step_stop};

use crate::program::solve_kept;
use dcx_answer::FilterStop;
use dcx_frac::Frac;
use dcx_graph::{Reduced, point_read};
use dcx_lp_answer::{LpAnswer, LpStatus};
use dcx_lp_solve::{SolveStop, Solved, run_stop};
use dcx_point::Point;
use dcx_tree::Problem;
use std::alloc::{AllocError, Global};

/// What a step shows.
#[derive(Drop)]
pub(crate) enum Tried {
    /// A point keeps all the constraints of the step.
    Possible {
        /// The point.
        point: Point,
    },
    /// No point does.
    Impossible {
        /// The answer of the step's program.
        answer: LpAnswer,
    },
}

/// What an answer shows.
fn shown(
    alloc: Global,
    problem: &Problem,
    reduced: &Reduced<Frac>,
    answer: LpAnswer,
) -> Result<Tried, AllocError>
    requires told { TellUnknowns reduced.now.program.kinds answer.columns }
    ensures { IfOk result (IsShownBy problem.now reduced.now.program answer) }
{
    match answer.status {
        LpStatus::Infeasible => Ok(Tried::Impossible { answer }),
        LpStatus::Optimal | LpStatus::Unbounded => {
            let kinds = reduced.rows().kinds.as_slice();
            let point = point_read(alloc, problem, kinds, answer.columns.as_slice());
            drop(answer);
            Ok(Tried::Possible { point: point? })
        }
    }
}

/// The stop of a step whose program isn't solved.
fn step_stop(step: u32, stop: SolveStop) -> FilterStop
    ensures { result ≡ step_stop step stop }
{
    match stop {
        SolveStop::Memory => FilterStop::Memory,
        SolveStop::TooLarge { .. } | SolveStop::Wide(_) | SolveStop::PivotLimit { .. } => {
            FilterStop::Step {
                step,
                stop: run_stop(stop),
            }
        }
    }
}

/// Whether some point keeps the constraints that are kept, as the program of this step tells, solved with at most `limit` pivots.
///
/// `Step` with the number of this step exactly where its program isn't solved.
pub(crate) fn try_kept(
    alloc: Global,
    problem: &Problem,
    reduced: &Reduced<Frac>,
    kept: &[bool],
    limit: u64,
    step: u32,
) -> Result<Tried, FilterStop>
    requires rows { sum_by constraint_rows problem.now.constraints ≤ length reduced.now.program.rows }
    requires flags { length kept.now ≡ length problem.now.constraints }
    ensures tried { IfOk result (IsTried problem.now reduced.now.program limit (flagged kept.now)) }
    ensures stops { IfErr result (StopsTry problem.now reduced.now.program limit (flagged kept.now) step) }
{
    match solve_kept(alloc, problem, reduced, kept, limit) {
        Ok(solved) => {
            let Solved {
                program,
                tableau,
                answer,
            } = solved;
            drop((program, tableau));
            Ok(shown(alloc, problem, reduced, answer)?)
        }
        Err(stop) => Err(step_stop(step, stop)),
    }
}
