//! The program that is kept, and the program at a setting.
ghost use Rattle.std.specs.Prelude.{◌≡◌, ◌+◌, ◌≤◌, [], false, length, Ok, Some, is_some, option_copied, IfOk, IfErr, OnOk};
ghost use Rattle.dcx_fit.specs.Fit.{FitsParameters};
ghost use Rattle.dcx_rules.specs.Verdicts.{IsVerdictOf};
ghost use Rattle.dcx_tree.specs.Meaning.{IsAccepted};
ghost use Rattle.dcx_graph.specs.Reducing.{OrMemory};
ghost use Rattle.dcx_graph.specs.Correct.{ReducesNumbers, ReducesAffine};
ghost use Rattle.dcx_cache.specs.Programs.{IsMapOf, HasMap, SessionGives, ProgramStops};
ghost use Rattle.dcx_cache.specs.Sessions.{KeepsMap};

use crate::stops::program_stop;
use dcx_answer::Stop;
use dcx_fit::fit;
use dcx_frac::Frac;
use dcx_graph::{ReduceStop, Reduced, fix, reduce};
use dcx_linear::ParamForm;
use dcx_point::Setting;
use dcx_rules::Verdict;
use dcx_steps::Steps;
use dcx_tree::Problem;
use std::alloc::{AllocError, Global};
use std::sync::ledger::Ledger;

/// The program with affine coefficients, for which no setting is read.
fn affine<L: Ledger>(
    alloc: Global,
    problem: &Problem,
    verdict: &Verdict,
    steps: &mut Steps<L>,
) -> Result<Reduced<ParamForm>, ReduceStop>
    requires { IsVerdictOf problem.now verdict.now }
    ensures program { OrMemory result (λ q. q.program) (ReducesAffine problem.now []) }
    ensures counted { OnOk result (steps.new ≡ steps.old + length problem.now.tree) }
    ensures few { steps.new ≤ steps.old + length problem.now.tree }
{
    let unread = Setting::empty(alloc);
    let map = reduce(alloc, problem, verdict, &unread, steps);
    drop(unread);
    map
}

/// The program with fractions, at a setting that fits.
fn numbers<L: Ledger>(
    alloc: Global,
    problem: &Problem,
    verdict: &Verdict,
    setting: &Setting,
    steps: &mut Steps<L>,
) -> Result<Reduced<Frac>, ReduceStop>
    requires verdict { IsVerdictOf problem.now verdict.now }
    requires fits { FitsParameters problem.now.parameters setting.now }
    ensures program { OrMemory result (λ q. q.program) (ReducesNumbers problem.now setting.now) }
    ensures from_map { IfOk result (λ q. q.from_map ≡ false) }
    ensures few { steps.new ≤ steps.old + length problem.now.tree }
{
    reduce(alloc, problem, verdict, setting, steps)
}

/// The program with affine coefficients, where the rules accept the problem with parameters affine and the program can be built.
pub(crate) fn map_of<L: Ledger>(
    alloc: Global,
    problem: &Problem,
    verdict: &Verdict,
    steps: &mut Steps<L>,
) -> Result<Option<Reduced<ParamForm>>, AllocError>
    requires { IsVerdictOf problem.now verdict.now }
    ensures kept { IfOk result (KeepsMap problem.now) }
    ensures counted { OnOk result (HasMap problem.now → steps.new ≡ steps.old + length problem.now.tree) }
    ensures few { steps.new ≤ steps.old + length problem.now.tree }
{
    if !verdict.dpp() {
        return Ok(None);
    }
    match affine(alloc, problem, verdict, steps) {
        Ok(map) => Ok(Some(map)),
        Err(ReduceStop::Memory) => Err(AllocError),
        Err(_) => Ok(None),
    }
}

/// The program of a session at a setting that fits.
pub(crate) fn program_at<L: Ledger>(
    alloc: Global,
    problem: &Problem,
    verdict: &Verdict,
    map: Option<&Reduced<ParamForm>>,
    setting: &Setting,
    steps: &mut Steps<L>,
) -> Result<Reduced<Frac>, ReduceStop>
    requires verdict { IsVerdictOf problem.now verdict.now }
    requires fits { FitsParameters problem.now.parameters setting.now }
    requires kept { KeepsMap problem.now (option_copied map) }
    ensures program { OrMemory result (λ q. q.program) (SessionGives problem.now setting.now) }
    ensures from_map { IfOk result (λ q. q.from_map ≡ is_some map.entry) }
    ensures counted { HasMap problem.now → steps.new ≡ steps.old }
    ensures few { steps.new ≤ steps.old + length problem.now.tree }
{
    match map {
        Some(map) => fix(alloc, map, setting),
        None => numbers(alloc, problem, verdict, setting, steps),
    }
}

/// The program of a session at a setting, or the first thing that stops it.
pub(crate) fn formed<L: Ledger>(
    alloc: Global,
    problem: &Problem,
    verdict: &Verdict,
    map: Option<&Reduced<ParamForm>>,
    setting: &Setting,
    steps: &mut Steps<L>,
) -> Result<Reduced<Frac>, Stop>
    requires verdict { IsVerdictOf problem.now verdict.now }
    requires kept { KeepsMap problem.now (option_copied map) }
    ensures fits { OnOk result (FitsParameters problem.now.parameters setting.now) }
    ensures gives { IfOk result (λ r. SessionGives problem.now setting.now (Ok r.program)) }
    ensures from_map { IfOk result (λ r. r.from_map ≡ is_some map.entry) }
    ensures stops { IfErr result (ProgramStops problem.now setting.now) }
    ensures counted { HasMap problem.now → steps.new ≡ steps.old }
    ensures few { steps.new ≤ steps.old + length problem.now.tree }
{
    fit(alloc, problem, setting)?;
    match program_at(alloc, problem, verdict, map, setting, steps) {
        Ok(reduced) => Ok(reduced),
        Err(stop) => Err(program_stop(stop)),
    }
}
