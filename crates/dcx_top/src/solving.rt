//! A problem is solved: at the settings of its script's solves, at those of a file, or at the two of the trial; or its certificate is written, or its constraints filtered, at those of a file.
ghost use Rattle.std.specs.Prelude.{◌≡◌, ◌⊎◌, ◌≤◌, ⊤, ℕ, false, List, Some, IsTrue, MatchOption};
ghost use Rattle.std.specs.declared.option.Option.{Option};
ghost use Rattle.dcx_settings.specs.Grammar.{Every};
ghost use Rattle.dcx_point.specs.Pairs.{Pairs};
ghost use Rattle.dcx_settings.specs.Meaning.{IsFull};
ghost use Rattle.dcx_host.specs.Faults.{Rose};
ghost use Rattle.dcx_rules.specs.Verdicts.{IsVerdictOf};
ghost use Rattle.dcx_tree.specs.Meaning.{IsAccepted};
ghost use Rattle.dcx_front.specs.Accepts.{IsJudged};
ghost use Rattle.dcx_words.specs.Commands.{solve as solves, trial as tries, command_of};
ghost use Rattle.dcx_overlay.specs.Settings.{AreLaidOver};
ghost use Rattle.dcx_host.specs.Files.{Files};
ghost use Rattle.dcx_declared.specs.Whole.{HasNoWhole};
ghost use Rattle.dcx_top.specs.Whole.{IsRefusedForWhole};
ghost use Rattle.dcx_top.specs.Runs.{Causes};
ghost use Rattle.dcx_top.specs.Solving.{OrWhole, SolvesUnder, CertifiesAt, FiltersAt, TriesAt, DoesAt, DoesFrom, task_refuses, command_for};

use crate::certifying::written;
use crate::files::{ended, read_script, read_settings};
use crate::whole::refuse_whole;
use dcx_cert_runs::certificate;
use dcx_elab::Work;
use dcx_front::{Accepted, accept};
use dcx_host::Library;
use dcx_outcomes::{filter_outcomes, outcomes};
use dcx_overlay::{all_laid_over, trial_settings};
use dcx_point::Setting;
use dcx_refusal::Refusal;
use dcx_report::{Run, Word};
use dcx_rules::Verdict;
use dcx_settings::Settings;
use dcx_steps::Steps;
use dcx_tree::Problem;
use dcx_trial::trial_script;
use std::alloc::Global;
use std::sync::ledger::Ledger;

/// What is done with a problem at the settings of a file.
#[derive(Clone, Copy)]
pub enum Task {
    /// It is solved, where `warm` says so from the columns that the settings before left.
    Resolve {
        /// Whether it does.
        warm: bool,
    },
    /// The certificate of its answers is written.
    Certificate,
    /// Its constraints are filtered.
    Filter,
}

/// An accepted problem is solved at settings, where `warm` says so from the columns that the settings before left.
fn solved_at<S: Ledger>(
    alloc: Global,
    problem: Problem,
    verdict: Verdict,
    settings: &[Setting],
    word: Word,
    limit: u64,
    warm: bool,
    steps: &mut Steps<S>,
) -> Run
    requires accepted { IsAccepted problem }
    requires verdict { IsVerdictOf problem verdict }
    ensures { SolvesUnder word warm problem limit settings.now steps.old steps.new result }
{
    let sense = problem.sense;
    match outcomes(alloc, problem, verdict, settings, limit, warm, steps) {
        Ok(found) => Run::Solved {
            word,
            sense,
            outcomes: found.outcomes,
            warm: found.warm,
        },
        Err(_) => Run::Memory,
    }
}

/// The certificate of an accepted problem at settings.
fn certified_at<S: Ledger>(
    alloc: Global,
    problem: Problem,
    verdict: Verdict,
    settings: &[Setting],
    limit: u64,
    steps: &mut Steps<S>,
) -> Run
    requires accepted { IsAccepted problem }
    requires verdict { IsVerdictOf problem verdict }
    ensures { CertifiesAt problem limit settings.now steps.old steps.new result }
{
    match certificate(alloc, problem, verdict, settings, limit, steps) {
        Ok(found) => written(alloc, &found.certificate, found.stopped),
        Err(_) => Run::Memory,
    }
}

/// The constraints of an accepted problem are filtered at settings.
fn filtered_at<S: Ledger>(
    alloc: Global,
    problem: Problem,
    verdict: Verdict,
    settings: &[Setting],
    limit: u64,
    steps: &mut Steps<S>,
) -> Run
    requires accepted { IsAccepted problem }
    requires verdict { IsVerdictOf problem verdict }
    ensures { FiltersAt problem limit settings.now steps.old steps.new result }
{
    match filter_outcomes(alloc, problem, verdict, settings, limit, steps) {
        Ok(outcomes) => Run::Filtered { outcomes },
        Err(_) => Run::Memory,
    }
}

/// An accepted problem is solved at the settings of its script's solves.
fn solve_events<S: Ledger>(
    alloc: Global,
    accepted: Accepted,
    limit: u64,
    steps: &mut Steps<S>,
) -> Run
    requires { IsJudged accepted.work.problem accepted.verdict }
    ensures { SolvesUnder Word.Solve false accepted.work.problem limit accepted.work.events steps.old steps.new result }
{
    let Accepted { work, verdict } = accepted;
    let Work {
        problem,
        events,
        last,
    } = work;
    drop(last);
    let settings = events.as_slice();
    let word = Word::Solve;
    solved_at(alloc, problem, verdict, settings, word, limit, false, steps)
}

/// What is asked of an accepted problem at settings.
fn do_at<S: Ledger>(
    alloc: Global,
    accepted: Accepted,
    settings: &[Setting],
    task: Task,
    limit: u64,
    steps: &mut Steps<S>,
) -> Run
    requires { IsJudged accepted.work.problem accepted.verdict }
    ensures { DoesAt task accepted.work limit settings.now steps.old steps.new result }
{
    let Accepted { work, verdict } = accepted;
    let Work {
        problem,
        events,
        last,
    } = work;
    drop((events, last));
    match task {
        Task::Resolve { warm } => {
            let word = Word::Setting;
            solved_at(alloc, problem, verdict, settings, word, limit, warm, steps)
        }
        Task::Certificate => certified_at(alloc, problem, verdict, settings, limit, steps),
        Task::Filter => filtered_at(alloc, problem, verdict, settings, limit, steps),
    }
}

/// What is asked of an accepted problem at the lines of a settings file, each laid over the setting that its script ends with.
fn do_lines<S: Ledger>(
    alloc: Global,
    accepted: Accepted,
    lines: &Settings,
    task: Task,
    limit: u64,
    steps: &mut Steps<S>,
) -> Run
    requires judged { IsJudged accepted.work.problem accepted.verdict }
    requires full { Every (Every IsFull) lines.now }
    ensures { ((result ≡ Run.Memory) × (steps.new ≡ steps.old)) ⊎ ((settings : List Pairs) × AreLaidOver accepted.work.last lines.now settings
        × DoesAt task accepted.work limit settings steps.old steps.new result) }
{
    match all_laid_over(alloc, &accepted.work.last, lines.as_slice()) {
        Ok(settings) => do_at(alloc, accepted, &settings, task, limit, steps),
        Err(_) => {
            drop(accepted);
            Run::Memory
        }
    }
}

/// The trial problem is solved at its two settings.
fn tried_at<S: Ledger>(
    alloc: Global,
    work: Work,
    verdict: Verdict,
    size: u32,
    limit: u64,
    steps: &mut Steps<S>,
) -> Run
    requires { IsJudged work.problem verdict }
    ensures { TriesAt work size limit steps.old steps.new result }
{
    let Ok(settings) = trial_settings(alloc, &work.last) else {
        drop((work, verdict));
        return Run::Memory;
    };
    let Work {
        problem,
        events,
        last,
    } = work;
    drop((events, last));
    match outcomes(alloc, problem, verdict, &settings, limit, false, steps) {
        Ok(found) => Run::Trial {
            size,
            outcomes: found.outcomes,
        },
        Err(_) => Run::Memory,
    }
}

/// The trial problem is solved, or refused where a variable of it is to be whole.
fn solve_trial<S: Ledger>(
    alloc: Global,
    accepted: Accepted,
    size: u32,
    limit: u64,
    steps: &mut Steps<S>,
) -> Run
    requires { IsJudged accepted.work.problem accepted.verdict }
    ensures { OrWhole ⊤ accepted.work.problem (TriesAt accepted.work size limit steps.old steps.new) steps.old steps.new result }
{
    match refuse_whole(&accepted.work.problem) {
        Some(refusal) => {
            drop(accepted);
            Run::Refused(refusal)
        }
        None => tried_at(alloc, accepted.work, accepted.verdict, size, limit, steps),
    }
}

/// What a script gives whose problem is solved at its solves.
pub(crate) fn solve<L: Library, S: Ledger>(
    alloc: Global,
    script: &str,
    limit: u64,
    library: &mut L,
    steps: &mut Steps<S>,
) -> Run
    ensures causes { (words : List (List ℕ)) → command_of words ≡ Some (solves script.now limit)
        → Causes words (L.told library.old) (Rose (L.faults library.old) (L.faults library.new)) steps.old steps.new result }
    ensures same { L.told library.new ≡ L.told library.old }
{
    match read_script(alloc, script, library) {
        Ok(accepted) => solve_events(alloc, accepted, limit, steps),
        Err(run) => run,
    }
}

/// Whether a problem with a variable that is to be whole is refused.
fn refuses_whole(task: Task) -> bool
    ensures { result ≡ task_refuses task }
{
    match task {
        Task::Resolve { warm } => warm,
        Task::Certificate | Task::Filter => true,
    }
}

/// The refusal of a script that has a variable that is to be whole, where that is refused.
fn whole_refusal(problem: &Problem, task: Task) -> Option<Refusal>
    ensures { MatchOption result (IsTrue (task_refuses task) → HasNoWhole problem.now) (λ r. IsTrue (task_refuses task) × IsRefusedForWhole problem.now r) }
{
    if refuses_whole(task) {
        refuse_whole(problem)
    } else {
        None
    }
}

/// What is asked of an accepted problem at the settings of a file.
fn do_file<L: Library, S: Ledger>(
    alloc: Global,
    accepted: Accepted,
    settings: &str,
    task: Task,
    limit: u64,
    library: &mut L,
    steps: &mut Steps<S>,
) -> Run
    requires { IsJudged accepted.work.problem accepted.verdict }
    ensures run { OrWhole (IsTrue (task_refuses task)) accepted.work.problem
        (DoesFrom (L.told library.old) (Rose (L.faults library.old) (L.faults library.new)) task accepted.work settings.now limit steps.old steps.new) steps.old steps.new result }
    ensures same { L.told library.new ≡ L.told library.old }
    ensures never_falls { L.faults library.old ≤ L.faults library.new }
{
    if let Some(refusal) = whole_refusal(&accepted.work.problem, task) {
        drop(accepted);
        return Run::Refused(refusal);
    }
    match read_settings(alloc, settings, library) {
        Ok(lines) => do_lines(alloc, accepted, &lines, task, limit, steps),
        Err(run) => {
            drop(accepted);
            run
        }
    }
}

/// What a script gives whose problem is solved at the settings of a file, whose certificate is wanted there, or whose constraints are
/// filtered there.
pub(crate) fn resolve<L: Library, S: Ledger>(
    alloc: Global,
    script: &str,
    settings: &str,
    task: Task,
    limit: u64,
    library: &mut L,
    steps: &mut Steps<S>,
) -> Run
    ensures causes { (words : List (List ℕ)) → command_of words ≡ Some (command_for task script.now settings.now limit)
        → Causes words (L.told library.old) (Rose (L.faults library.old) (L.faults library.new)) steps.old steps.new result }
    ensures same { L.told library.new ≡ L.told library.old }
{
    match read_script(alloc, script, library) {
        Ok(accepted) => do_file(alloc, accepted, settings, task, limit, library, steps),
        Err(run) => run,
    }
}

/// What the trial problem of this size gives. Its script is read as any script is.
pub(crate) fn trial<S: Ledger>(alloc: Global, size: u32, limit: u64, steps: &mut Steps<S>) -> Run
    ensures { (words : List (List ℕ)) (told : Option Files) (before now : ℕ) → command_of words ≡ Some (tries size limit) → Causes words told (Rose before now) steps.old steps.new result }
{
    let Ok(bytes) = trial_script(alloc, size) else {
        return Run::Memory;
    };
    match accept(alloc, bytes.as_slice()) {
        Ok(accepted) => solve_trial(alloc, accepted, size, limit, steps),
        Err(fault) => ended(fault),
    }
}
