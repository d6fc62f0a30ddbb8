//! An answer at a setting, from the scaled program of the rows that are solved there.
ghost use Rattle.std.specs.Prelude.{◌≡◌, IfOk, IfErr};
ghost use Rattle.dcx_tree.specs.Meaning.{IsAccepted};
ghost use Rattle.dcx_cache.specs.Programs.{IsScaledAt};
ghost use Rattle.dcx_cache.specs.Answers.{IsAnswerOf, Stops};

use crate::session::Last;
use crate::stops::reading_stop;
use dcx_answer::{Answer, Stop};
use dcx_frac::Frac;
use dcx_graph::{Reduced, map_back};
use dcx_lp_solve::{run_stop, solve_program};
use dcx_point::Setting;
use dcx_tab::Program;
use dcx_tree::Problem;
use std::alloc::Global;

/// The answer that the scaled program of a session's rows shows at a setting, and how it was found.
pub(crate) fn answered_scaled(
    alloc: Global,
    problem: &Problem,
    setting: &Setting,
    reduced: Reduced<Frac>,
    program: Program,
    limit: u64,
) -> Result<(Answer, Last), Stop>
    requires accepted { IsAccepted problem.now }
    requires scaled { IsScaledAt problem.now setting.now reduced.program program }
    ensures same { IfOk result (λ r. r.1.reduced ≡ reduced) }
    ensures answer { IfOk result (λ r. IsAnswerOf problem.now setting.now limit reduced.program r.1.solved r.0) }
    ensures stops { IfErr result (Stops problem.now setting.now limit) }
{
    let solved = match solve_program(alloc, program, limit) {
        Ok(solved) => solved,
        Err(stop) => {
            drop(reduced);
            return Err(run_stop(stop));
        }
    };
    match map_back(alloc, problem, setting, &reduced, &solved.answer) {
        Ok(answer) => Ok((answer, Last { reduced, solved })),
        Err(stop) => {
            drop(reduced);
            drop(solved);
            Err(reading_stop(stop))
        }
    }
}
