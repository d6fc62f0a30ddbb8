//! An answer at a setting from the basic columns of an earlier answer.
ghost use Rattle.std.specs.Prelude.{◌≡◌, ◌≢◌, ◌+◌, ◌≤◌, false, length, Ok, Some, is_some, option_copied, IfOk, IfErr};
ghost use Rattle.dcx_fit.specs.Fit.{FitsParameters};
ghost use Rattle.dcx_rules.specs.Verdicts.{IsVerdictOf};
ghost use Rattle.dcx_tree.specs.Meaning.{IsAccepted, setting_of};
ghost use Rattle.dcx_graph.specs.Answers.{IsAnswered};
ghost use Rattle.dcx_warm.specs.Install.{AreApart};
ghost use Rattle.dcx_cache.specs.Programs.{HasMap, SessionGives, IsScaledAt};
ghost use Rattle.dcx_cache.specs.Answers.{IsAnswerOf, Stops};
ghost use Rattle.dcx_cache.specs.Columns.{HoldsApart};
ghost use Rattle.dcx_cache.specs.Sessions.{KeepsMap};
ghost use Rattle.dcx_cache.specs.Warm.{IsAnsweredBy, NeverWarm, ReadsBack, ReadsWarm};

use crate::program::formed;
use crate::scaled::answered_scaled;
use crate::session::Last;
use dcx_answer::{Answer, Stop};
use dcx_frac::Frac;
use dcx_graph::{AnswerStop, Reduced, map_back};
use dcx_linear::ParamForm;
use dcx_lp_solve::{Solved, WarmEnd, rows_stop, run_stop, solve_warm};
use dcx_point::Setting;
use dcx_rules::Verdict;
use dcx_std::integer_rows;
use dcx_steps::Steps;
use dcx_tab::Program;
use dcx_tree::Problem;
use dcx_warm::Columns;
use std::alloc::{AllocError, Global};
use std::sync::ledger::Ledger;

/// An answer, and whether it comes from the columns of an earlier one.
#[derive(Drop)]
pub struct Warmed {
    /// The answer.
    pub answer: Answer,
    /// Whether the warm run from the columns that were kept found it.
    pub kept: bool,
}

/// What is read back to the problem from the end of the warm run, where no multiplier passes 128 bits.
fn read_back(
    alloc: Global,
    problem: &Problem,
    setting: &Setting,
    reduced: &Reduced<Frac>,
    end: WarmEnd,
) -> Result<Option<(Answer, WarmEnd)>, AllocError>
    requires { IsAnswered problem.now (setting_of problem.now setting.now) reduced.now.program end.answer }
    ensures { IfOk result (ReadsBack problem.now reduced.now.program end) }
{
    match map_back(alloc, problem, setting, reduced, &end.answer) {
        Ok(answer) => Ok(Some((answer, end))),
        Err(AnswerStop::Wide(_)) => {
            drop(end);
            Ok(None)
        }
        Err(AnswerStop::Memory) => {
            drop(end);
            Err(AllocError)
        }
    }
}

/// The answer that the scaled program of a session's rows shows from columns that are kept, where there is one, and what the warm
/// run ended with.
fn answered_warm(
    alloc: Global,
    problem: &Problem,
    setting: &Setting,
    reduced: &Reduced<Frac>,
    program: &Program,
    columns: &Columns,
    limit: u64,
) -> Result<Option<(Answer, WarmEnd)>, AllocError>
    requires accepted { IsAccepted problem.now }
    requires mapped { HasMap problem.now }
    requires scaled { IsScaledAt problem.now setting.now reduced.now.program program.now }
    requires apart { AreApart columns.now }
    ensures { IfOk result (ReadsWarm problem.now setting.now limit columns.now reduced.now.program program.now) }
{
    match solve_warm(alloc, program, columns, limit) {
        Ok(Some(end)) => read_back(alloc, problem, setting, reduced, end),
        Ok(None) => Ok(None),
        Err(_) => Err(AllocError),
    }
}

/// The answer that the scaled program shows without such columns.
fn fresh(
    alloc: Global,
    problem: &Problem,
    setting: &Setting,
    reduced: Reduced<Frac>,
    program: Program,
    limit: u64,
) -> Result<(Warmed, Last), Stop>
    requires accepted { IsAccepted problem.now }
    requires scaled { IsScaledAt problem.now setting.now reduced.program program }
    ensures same { IfOk result (λ r. r.1.reduced ≡ reduced) }
    ensures fresh { IfOk result (λ r. r.0.kept ≡ false) }
    ensures answer { IfOk result (λ r. IsAnswerOf problem.now setting.now limit reduced.program r.1.solved r.0.answer) }
    ensures stops { IfErr result (Stops problem.now setting.now limit) }
{
    match answered_scaled(alloc, problem, setting, reduced, program, limit) {
        Ok((answer, last)) => Ok((
            Warmed {
                answer,
                kept: false,
            },
            last,
        )),
        Err(stop) => Err(stop),
    }
}

/// The answer that the scaled program shows from columns that are kept, or else without them.
fn rewarmed(
    alloc: Global,
    problem: &Problem,
    setting: &Setting,
    reduced: Reduced<Frac>,
    program: Program,
    columns: &Columns,
    limit: u64,
) -> Result<(Warmed, Last), Stop>
    requires accepted { IsAccepted problem.now }
    requires mapped { HasMap problem.now }
    requires scaled { IsScaledAt problem.now setting.now reduced.program program }
    requires apart { AreApart columns.now }
    ensures same { IfOk result (λ r. r.1.reduced ≡ reduced) }
    ensures answer { IfOk result (λ r. IsAnsweredBy problem.now setting.now limit (Some columns.now) r.0.kept reduced.program r.1.solved r.0.answer) }
    ensures never { IfErr result (λ e. e ≢ Stop.Memory → NeverWarm problem.now setting.now limit (Some columns.now)) }
    ensures stops { IfErr result (Stops problem.now setting.now limit) }
{
    match answered_warm(alloc, problem, setting, &reduced, &program, columns, limit) {
        Ok(Some((answer, end))) => {
            let solved = Solved {
                program,
                tableau: end.tableau,
                answer: end.answer,
            };
            Ok((Warmed { answer, kept: true }, Last { reduced, solved }))
        }
        Ok(None) => fresh(alloc, problem, setting, reduced, program, limit),
        Err(_) => {
            drop(reduced);
            drop(program);
            Err(Stop::Memory)
        }
    }
}

/// The answer that the scaled program shows from what is kept: from the columns, where there is a map and there are columns.
fn from_kept(
    alloc: Global,
    problem: &Problem,
    setting: &Setting,
    reduced: Reduced<Frac>,
    program: Program,
    map: Option<&Reduced<ParamForm>>,
    columns: Option<&Columns>,
    limit: u64,
) -> Result<(Warmed, Last), Stop>
    requires accepted { IsAccepted problem.now }
    requires scaled { IsScaledAt problem.now setting.now reduced.program program }
    requires kept { KeepsMap problem.now (option_copied map) }
    requires apart { HoldsApart (option_copied columns) }
    ensures same { IfOk result (λ r. r.1.reduced ≡ reduced) }
    ensures answer { IfOk result (λ r. IsAnsweredBy problem.now setting.now limit (option_copied columns.entry) r.0.kept reduced.program r.1.solved r.0.answer) }
    ensures never { IfErr result (λ e. e ≢ Stop.Memory → NeverWarm problem.now setting.now limit (option_copied columns.entry)) }
    ensures stops { IfErr result (Stops problem.now setting.now limit) }
{
    match map {
        Some(_) => match columns {
            Some(columns) => rewarmed(alloc, problem, setting, reduced, program, columns, limit),
            None => fresh(alloc, problem, setting, reduced, program, limit),
        },
        None => fresh(alloc, problem, setting, reduced, program, limit),
    }
}

/// The answer that the program of a session shows from what is kept. Its scaled program is made once, for the run from the columns
/// and for the one without them.
fn from_rows(
    alloc: Global,
    problem: &Problem,
    setting: &Setting,
    reduced: Reduced<Frac>,
    map: Option<&Reduced<ParamForm>>,
    columns: Option<&Columns>,
    limit: u64,
) -> Result<(Warmed, Last), Stop>
    requires accepted { IsAccepted problem.now }
    requires fits { FitsParameters problem.now.parameters setting.now }
    requires program { SessionGives problem.now setting.now (Ok reduced.program) }
    requires kept { KeepsMap problem.now (option_copied map) }
    requires apart { HoldsApart (option_copied columns) }
    ensures same { IfOk result (λ r. r.1.reduced ≡ reduced) }
    ensures answer { IfOk result (λ r. IsAnsweredBy problem.now setting.now limit (option_copied columns.entry) r.0.kept reduced.program r.1.solved r.0.answer) }
    ensures never { IfErr result (λ e. e ≢ Stop.Memory → NeverWarm problem.now setting.now limit (option_copied columns.entry)) }
    ensures stops { IfErr result (Stops problem.now setting.now limit) }
{
    match integer_rows(alloc, reduced.rows()) {
        Ok(program) => from_kept(
            alloc, problem, setting, reduced, program, map, columns, limit,
        ),
        Err(stop) => {
            drop(reduced);
            Err(run_stop(rows_stop(stop)))
        }
    }
}

/// The answer of a session at a setting from what is kept, and how it was found.
pub(crate) fn resolved<L: Ledger>(
    alloc: Global,
    problem: &Problem,
    verdict: &Verdict,
    map: Option<&Reduced<ParamForm>>,
    columns: Option<&Columns>,
    setting: &Setting,
    limit: u64,
    steps: &mut Steps<L>,
) -> Result<(Warmed, Last), Stop>
    requires accepted { IsAccepted problem.now }
    requires verdict { IsVerdictOf problem.now verdict.now }
    requires kept { KeepsMap problem.now (option_copied map) }
    requires apart { HoldsApart (option_copied columns) }
    ensures answer { IfOk result (λ r. IsAnsweredBy problem.now setting.now limit (option_copied columns.entry) r.0.kept r.1.reduced.program r.1.solved r.0.answer) }
    ensures from_map { IfOk result (λ r. r.1.reduced.from_map ≡ is_some map.entry) }
    ensures never { IfErr result (λ e. e ≢ Stop.Memory → NeverWarm problem.now setting.now limit (option_copied columns.entry)) }
    ensures stops { IfErr result (Stops problem.now setting.now limit) }
    ensures counted { HasMap problem.now → steps.new ≡ steps.old }
    ensures few { steps.new ≤ steps.old + length problem.now.tree }
{
    match formed(alloc, problem, verdict, map, setting, steps) {
        Ok(reduced) => from_rows(alloc, problem, setting, reduced, map, columns, limit),
        Err(stop) => Err(stop),
    }
}
