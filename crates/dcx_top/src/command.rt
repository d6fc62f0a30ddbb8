//! The top call.
//!
//! | what must hold | the clause of `run` |
//! |---|---|
//! | an accepted problem is what the script's bytes stand for, the rules accept it, and it is convex at every fitting setting; each answer is right for it at its setting, as it shows itself | `headline` |
//! | each run has its cause: each refusal, each outcome, each answer and each stop; so many steps are counted | `causes` |
//! | words and told files have one run, with one outcome at each setting, all of whose numbers are the same | `only` |
//! | files are refused exactly where they are at fault, and the problem checked or solved exactly where they are not | `verdict` |
//! | the usage line comes exactly where the words are no plain form | `usage` |
//! | the report's text or a front of it is written, with its status, and each write is handed all that is left of it | `reports` |
//! | a `resolve` with `--warm` answers each setting from the columns that the settings before it left, where that can be, and counts those | `causes` |
//! | a `range` tells of each setting how far the parameter may move, and the line that the value of the problem goes along meanwhile | `headline`, `causes` |
//! | a problem with variables that are to be whole is solved by branch and bound: a whole optimum, or that there is no whole point, with the number of nodes of the run | `headline`, `causes` |
//! | an `iis` tells of each setting a feasible point, or the filter's set with a point for each member that keeps the others | `headline`, `causes` |
//! | no file changes | `same` |
ghost use Rattle.std.specs.Prelude.{◌≡◌, ◌↔◌, IsTrue, map, string_bytes, None};
ghost use Rattle.dcx_host.specs.Faults.{Rose};
ghost use Rattle.dcx_words.specs.Commands.{command_of};
ghost use Rattle.dcx_top.specs.Runs.{Causes};
ghost use Rattle.dcx_top.specs.Headline.{IsRightRun};
ghost use Rattle.dcx_top.specs.OneRun.{IsOnlyRun};
ghost use Rattle.dcx_top.specs.Verdicts.{IsRightVerdict};
ghost use Rattle.dcx_report.specs.ReportText.{text_of};
ghost use Rattle.dcx_top.specs.Ended.{Reports, IsToldOf};

use crate::certifying::{certify, migrate};
use crate::checking::check;
use crate::ended::Ended;
use crate::ranging::range;
use crate::solving::{Task, resolve, solve, trial};
use crate::status::{failed_status, status};
use dcx_host::{Library, Sink, SinkFault, write_all};
use dcx_report::{Run, memory_report, report_text, usage_report};
use dcx_steps::Steps;
use dcx_words::{Form, plain_form};
use std::alloc::Global;
use std::sync::ledger::Ledger;

/// What the words give.
fn answer<L: Library, S: Ledger>(
    alloc: Global,
    words: &[String],
    library: &mut L,
    steps: &mut Steps<S>,
) -> Run
    ensures causes { Causes (map string_bytes words.now) (L.told library.old) (Rose (L.faults library.old) (L.faults library.new)) steps.old steps.new result }
    ensures usage { (result ≡ Run.Usage) ↔ (command_of (map string_bytes words.now) ≡ None) }
    ensures same { L.told library.new ≡ L.told library.old }
{
    let Some(form) = plain_form(words) else {
        return Run::Usage;
    };
    match form {
        Form::Check { script } => check(alloc, script, library),
        Form::Solve { script, limit } => solve(alloc, script, limit, library, steps),
        Form::Resolve {
            script,
            settings,
            limit,
            warm,
        } => resolve(
            alloc,
            script,
            settings,
            Task::Resolve { warm },
            limit,
            library,
            steps,
        ),
        Form::Certificate {
            script,
            settings,
            limit,
        } => resolve(
            alloc,
            script,
            settings,
            Task::Certificate,
            limit,
            library,
            steps,
        ),
        Form::Certify {
            script,
            settings,
            certificate,
        } => certify(alloc, script, settings, certificate, library),
        Form::Migrate {
            script,
            settings,
            certificate,
        } => migrate(alloc, script, settings, certificate, library),
        Form::Trial { size, limit } => trial(alloc, size, limit, steps),
        Form::Iis {
            script,
            settings,
            limit,
        } => resolve(alloc, script, settings, Task::Filter, limit, library, steps),
        Form::Range {
            script,
            settings,
            parameter,
            limit,
        } => range(alloc, script, settings, parameter, limit, library, steps),
    }
}

/// Writes the report of a run, whose bytes are these.
fn written<K: Sink>(run: Run, report: &[u8], sink: &mut K) -> Ended
    requires { report.now ≡ text_of run }
    ensures run { result.run ≡ run }
    ensures reports { Reports (K.written sink.old) (K.written sink.new) (K.handed sink.old) (K.handed sink.new) (Rose (K.faults sink.old) (K.faults sink.new)) result }
{
    match write_all(report, sink) {
        Ok(()) => Ended {
            status: status(&run),
            run,
        },
        Err(SinkFault::Failed) => Ended {
            status: failed_status(&run),
            run,
        },
        Err(SinkFault::Memory) => Ended { status: 5, run },
    }
}

/// Whether a run tells the usage line.
fn is_usage(run: &Run) -> bool
    ensures { IsTrue result ↔ (run.now ≡ Run.Usage) }
{
    matches!(run, Run::Usage)
}

/// Writes what is told of a run for whose report there is no memory, which its values take until they are dropped.
fn written_in_short<K: Sink>(run: Run, sink: &mut K) -> Ended
    ensures told { IsToldOf run result.run }
    ensures reports { Reports (K.written sink.old) (K.written sink.new) (K.handed sink.old) (K.handed sink.new) (Rose (K.faults sink.old) (K.faults sink.new)) result }
{
    if is_usage(&run) {
        return written(run, usage_report(), sink);
    }
    drop(run);
    written(Run::Memory, memory_report(), sink)
}

/// Writes the report of a run, or what is told of it where there is no memory for that.
fn reported<K: Sink>(alloc: Global, run: Run, sink: &mut K) -> Ended
    ensures told { IsToldOf run result.run }
    ensures reports { Reports (K.written sink.old) (K.written sink.new) (K.handed sink.old) (K.handed sink.new) (Rose (K.faults sink.old) (K.faults sink.new)) result }
{
    match report_text(alloc, &run) {
        Ok(report) => written(run, report.as_slice(), sink),
        Err(_) => written_in_short(run, sink),
    }
}

/// Where there is no memory for the words of the command line: tells that memory is wanting, which takes none, with the status 5.
pub fn without_words<K: Sink>(sink: &mut K) -> Ended
    ensures run { result.run ≡ Run.Memory }
    ensures status { result.status ≡ 5 }
    ensures reports { Reports (K.written sink.old) (K.written sink.new) (K.handed sink.old) (K.handed sink.new) (Rose (K.faults sink.old) (K.faults sink.new)) result }
{
    let run = Run::Memory;
    written(run, memory_report(), sink)
}

/// All that the program does: it carries out the words and writes the report of the run to the sink.
///
/// `words` are the words after the program's name. Files are fetched from `library`: the script first, the settings file once the
/// script gives an accepted problem, which for a `range` has a range for its parameter, and the certificate once the settings are
/// read. `steps` counts the nodes that are reduced. Want of memory is the one free answer: as `Run::Memory`, also where there is no
/// memory for the report, as the stop of an outcome, or where the sink wants it, and each has the status 5.
pub fn run<L: Library, K: Sink, S: Ledger>(
    alloc: Global,
    words: &[String],
    library: &mut L,
    sink: &mut K,
    steps: &mut Steps<S>,
) -> Ended
    ensures headline { IsRightRun (map string_bytes words.now) (L.told library.old) result.run }
    ensures causes { Causes (map string_bytes words.now) (L.told library.old) (Rose (L.faults library.old) (L.faults library.new)) steps.old steps.new result.run }
    ensures only { IsOnlyRun (map string_bytes words.now) (L.told library.old) result.run }
    ensures verdict { IsRightVerdict (map string_bytes words.now) (L.told library.old) result.run }
    ensures usage { (result.run ≡ Run.Usage) ↔ (command_of (map string_bytes words.now) ≡ None) }
    ensures reports { Reports (K.written sink.old) (K.written sink.new) (K.handed sink.old) (K.handed sink.new) (Rose (K.faults sink.old) (K.faults sink.new)) result }
    ensures same { L.told library.new ≡ L.told library.old }
{
    let run = answer(alloc, words, library, steps);
    reported(alloc, run, sink)
}
