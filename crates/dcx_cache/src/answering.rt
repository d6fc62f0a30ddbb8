//! An answer at a setting.
ghost use Rattle.std.specs.Prelude.{◌≡◌, ◌+◌, ◌≤◌, length, is_some, option_copied, Ok, IfOk, IfErr};
ghost use Rattle.dcx_fit.specs.Fit.{FitsParameters};
ghost use Rattle.dcx_rules.specs.Verdicts.{IsVerdictOf};
ghost use Rattle.dcx_tree.specs.Meaning.{IsAccepted};
ghost use Rattle.dcx_cache.specs.Programs.{HasMap, SessionGives};
ghost use Rattle.dcx_cache.specs.Answers.{IsAnswerOf, Stops};
ghost use Rattle.dcx_cache.specs.Sessions.{KeepsMap};

use crate::program::formed;
use crate::scaled::answered_scaled;
use crate::session::Last;
use dcx_answer::{Answer, Stop};
use dcx_frac::Frac;
use dcx_graph::Reduced;
use dcx_linear::ParamForm;
use dcx_lp_solve::{rows_stop, run_stop};
use dcx_point::Setting;
use dcx_rules::Verdict;
use dcx_std::integer_rows;
use dcx_steps::Steps;
use dcx_tree::Problem;
use std::alloc::Global;
use std::sync::ledger::Ledger;

/// The answer that the program of a session shows at a setting that fits, and how it was found.
pub(crate) fn answered(
    alloc: Global,
    problem: &Problem,
    setting: &Setting,
    reduced: Reduced<Frac>,
    limit: u64,
) -> Result<(Answer, Last), Stop>
    requires accepted { IsAccepted problem.now }
    requires fits { FitsParameters problem.now.parameters setting.now }
    requires program { SessionGives problem.now setting.now (Ok reduced.program) }
    ensures same { IfOk result (λ r. r.1.reduced ≡ reduced) }
    ensures answer { IfOk result (λ r. IsAnswerOf problem.now setting.now limit reduced.program r.1.solved r.0) }
    ensures stops { IfErr result (Stops problem.now setting.now limit) }
{
    match integer_rows(alloc, reduced.rows()) {
        Ok(program) => answered_scaled(alloc, problem, setting, reduced, program, limit),
        Err(stop) => {
            drop(reduced);
            Err(run_stop(rows_stop(stop)))
        }
    }
}

/// The answer of a session at a setting, and how it was found.
pub(crate) fn solved<L: Ledger>(
    alloc: Global,
    problem: &Problem,
    verdict: &Verdict,
    map: Option<&Reduced<ParamForm>>,
    setting: &Setting,
    limit: u64,
    steps: &mut Steps<L>,
) -> Result<(Answer, Last), Stop>
    requires accepted { IsAccepted problem.now }
    requires verdict { IsVerdictOf problem.now verdict.now }
    requires kept { KeepsMap problem.now (option_copied map) }
    ensures answer { IfOk result (λ r. IsAnswerOf problem.now setting.now limit r.1.reduced.program r.1.solved r.0) }
    ensures from_map { IfOk result (λ r. r.1.reduced.from_map ≡ is_some map.entry) }
    ensures stops { IfErr result (Stops problem.now setting.now limit) }
    ensures counted { HasMap problem.now → steps.new ≡ steps.old }
    ensures few { steps.new ≤ steps.old + length problem.now.tree }
{
    match formed(alloc, problem, verdict, map, setting, steps) {
        Ok(reduced) => answered(alloc, problem, setting, reduced, limit),
        Err(stop) => Err(stop),
    }
}
