//! The range of a parameter is told at the settings of a file.
ghost use Rattle.std.specs.Prelude.{◌≡◌, ◌⊎◌, ◌≤◌, ⊤, ℕ, List, Some, IfOk};
ghost use Rattle.dcx_point.specs.Pairs.{Pairs};
ghost use Rattle.dcx_settings.specs.Grammar.{Every};
ghost use Rattle.dcx_settings.specs.Meaning.{IsFull};
ghost use Rattle.dcx_host.specs.Faults.{Rose};
ghost use Rattle.dcx_front.specs.Accepts.{IsJudged};
ghost use Rattle.dcx_words.specs.Commands.{range as ranges, command_of};
ghost use Rattle.dcx_overlay.specs.Settings.{AreLaidOver};
ghost use Rattle.dcx_answer.specs.declared.range_outcome.RangeOutcome.{RangeOutcome};
ghost use Rattle.dcx_outcomes.specs.Counts.{Counts};
ghost use Rattle.dcx_outcomes.specs.Ranges.{HasRange, AreRangeOutcomes};
ghost use Rattle.dcx_elab.specs.declared.work.Work.{Work};
ghost use Rattle.dcx_top.specs.Runs.{Causes};
ghost use Rattle.dcx_top.specs.Solving.{OrWhole, RangesFrom};

use crate::files::{read_script, read_settings};
use crate::no_range::refuse_range;
use crate::whole::refuse_whole;
use dcx_elab::Work;
use dcx_front::Accepted;
use dcx_host::Library;
use dcx_outcomes::{Session, begin, range_outcomes};
use dcx_overlay::all_laid_over;
use dcx_point::Setting;
use dcx_report::Run;
use dcx_rules::Verdict;
use dcx_settings::Settings;
use dcx_shape::Name;
use dcx_steps::Steps;
use std::alloc::{AllocError, Global};
use std::sync::ledger::Ledger;

/// The name of a parameter, with these bytes.
fn name_of(alloc: Global, word: &str) -> Result<Name, AllocError>
    ensures { IfOk result (λ name. name ≡ word.now) }
{
    let bytes = Vec::from_slice(alloc, word.as_bytes())?;
    Ok(Name::from_vec(bytes))
}

/// The range of a parameter of a session's problem, at the lines of a settings file, each laid over the setting that its script ends
/// with.
fn range_lines<S: Ledger>(
    alloc: Global,
    session: &mut Session,
    last: &Setting,
    lines: &Settings,
    name: Name,
    limit: u64,
    steps: &mut Steps<S>,
) -> Run
    requires ranged { HasRange session.old.problem name }
    requires full { Every (Every IsFull) lines.now }
    ensures { ((result ≡ Run.Memory) × (steps.new ≡ steps.old)) ⊎ ((settings : List Pairs) × (outcomes : List RangeOutcome) × AreLaidOver last.now lines.now settings
        × AreRangeOutcomes session.old.problem name limit settings outcomes × (result ≡ Run.Ranged name session.old.problem.sense outcomes) × (steps.new ≡ steps.old)) }
{
    let Ok(settings) = all_laid_over(alloc, last, lines.as_slice()) else {
        return Run::Memory;
    };
    let sense = session.problem().sense;
    match range_outcomes(alloc, session, &settings, &name, limit, steps) {
        Ok(outcomes) => Run::Ranged {
            parameter: name,
            sense,
            outcomes,
        },
        Err(_) => Run::Memory,
    }
}

/// The range of a parameter of a session's problem at the settings of a file; or the run that ends where it has none, or where the file
/// is refused or isn't had.
fn range_session<L: Library, S: Ledger>(
    alloc: Global,
    session: &mut Session,
    last: &Setting,
    settings: &str,
    name: Name,
    limit: u64,
    library: &mut L,
    steps: &mut Steps<S>,
) -> Run
    ensures run { (work : Work) (begun : ℕ) → work.problem ≡ session.old.problem → work.last ≡ last.now → Counts work.problem 0 begun steps.old
        → RangesFrom (L.told library.old) (Rose (L.faults library.old) (L.faults library.new)) work settings.now name limit begun steps.new result }
    ensures same { L.told library.new ≡ L.told library.old }
    ensures never_falls { L.faults library.old ≤ L.faults library.new }
{
    if let Some(refusal) = refuse_range(session, &name) {
        return Run::Refused(refusal);
    }
    match read_settings(alloc, settings, library) {
        Ok(lines) => range_lines(alloc, session, last, &lines, name, limit, steps),
        Err(run) => run,
    }
}

/// The range of a parameter of a script's problem at the settings of a file.
fn range_work<L: Library, S: Ledger>(
    alloc: Global,
    work: Work,
    verdict: Verdict,
    settings: &str,
    name: Name,
    limit: u64,
    library: &mut L,
    steps: &mut Steps<S>,
) -> Run
    requires { IsJudged work.problem verdict }
    ensures run { RangesFrom (L.told library.old) (Rose (L.faults library.old) (L.faults library.new)) work settings.now name limit steps.old steps.new result }
    ensures same { L.told library.new ≡ L.told library.old }
    ensures never_falls { L.faults library.old ≤ L.faults library.new }
{
    let Work {
        problem,
        events,
        last,
    } = work;
    drop(events);
    match begin(alloc, problem, verdict, steps) {
        Ok(mut session) => {
            let run = range_session(
                alloc,
                &mut session,
                &last,
                settings,
                name,
                limit,
                library,
                steps,
            );
            drop(session);
            run
        }
        Err(_) => Run::Memory,
    }
}

/// The range of a parameter of an accepted problem at the settings of a file, or its refusal where a variable is to be whole.
fn range_file<L: Library, S: Ledger>(
    alloc: Global,
    accepted: Accepted,
    settings: &str,
    parameter: &str,
    limit: u64,
    library: &mut L,
    steps: &mut Steps<S>,
) -> Run
    requires { IsJudged accepted.work.problem accepted.verdict }
    ensures run { OrWhole ⊤ accepted.work.problem (RangesFrom (L.told library.old)
        (Rose (L.faults library.old) (L.faults library.new)) accepted.work settings.now parameter.now limit steps.old steps.new) steps.old steps.new result }
    ensures same { L.told library.new ≡ L.told library.old }
    ensures never_falls { L.faults library.old ≤ L.faults library.new }
{
    if let Some(refusal) = refuse_whole(&accepted.work.problem) {
        drop(accepted);
        return Run::Refused(refusal);
    }
    match name_of(alloc, parameter) {
        Ok(name) => range_work(
            alloc,
            accepted.work,
            accepted.verdict,
            settings,
            name,
            limit,
            library,
            steps,
        ),
        Err(_) => {
            drop(accepted);
            Run::Memory
        }
    }
}

/// What a script gives whose problem's parameter is asked how far it may move at the settings of a file.
pub(crate) fn range<L: Library, S: Ledger>(
    alloc: Global,
    script: &str,
    settings: &str,
    parameter: &str,
    limit: u64,
    library: &mut L,
    steps: &mut Steps<S>,
) -> Run
    ensures causes { (words : List (List ℕ)) → command_of words ≡ Some (ranges script.now settings.now parameter.now limit)
        → Causes words (L.told library.old) (Rose (L.faults library.old) (L.faults library.new)) steps.old steps.new result }
    ensures same { L.told library.new ≡ L.told library.old }
{
    match read_script(alloc, script, library) {
        Ok(accepted) => range_file(alloc, accepted, settings, parameter, limit, library, steps),
        Err(run) => run,
    }
}
