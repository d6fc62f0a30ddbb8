//! The bytes of the report of a run.
ghost use Rattle.std.specs.Prelude.{◌≡◌, ◌++◌, IfOk, OnOk};
ghost use Rattle.dcx_report.specs.OutcomeText.{word_text, end_text, outcome_text, outcome_lines, count_line, warm_line};
ghost use Rattle.dcx_report.specs.ReportText.{text_of};

use crate::answer_lines::put_answer;
use crate::certified_lines::{put_cert_refused, put_certified};
use crate::check_lines::put_checked;
use crate::counts::put_setting_counts;
use crate::filter_lines::{put_filter_counts, put_filters};
use crate::pieces::put_numbered;
use crate::range_lines::{put_range_counts, put_ranges};
use crate::refusal_line::put_refusal;
use crate::stop_line::put_stopped;
use crate::trial_lines::put_trial;
use crate::whole_lines::{put_branch_stop, put_whole};
use crate::{Outcome, OutcomeEnd, Run, Sense, Word};
use dcx_lines::put_bytes;
use dcx_shape::{Bytes, Place};
use std::alloc::{AllocError, Global};

/// The word that each outcome's first line begins with.
#[tactic(auto, unfolding(crate::specs::OutcomeText::word_text))]
fn word_of_outcomes(word: Word) -> &'static [u8]
    ensures { result.now ≡ word_text word }
{
    match word {
        Word::Solve => b"solve",
        Word::Setting => b"setting",
    }
}

/// Appends how a setting ends, behind its number.
#[tactic(auto, unfolding(crate::specs::OutcomeText::end_text))]
fn put_end(
    out: &mut Vec<u8>,
    sense: Sense,
    place: Option<Place>,
    end: &OutcomeEnd,
) -> Result<(), AllocError>
    ensures { OnOk result (out.new.items ≡ out.old.items ++ end_text sense place end.now) }
{
    match end {
        OutcomeEnd::Answer(answer) => put_answer(out, sense, answer),
        OutcomeEnd::Whole(answer) => put_whole(out, sense, answer),
        OutcomeEnd::Branch(stop) => put_branch_stop(out, stop),
        OutcomeEnd::Stop(stop) => put_stopped(out, place, stop),
    }
}

/// Appends the lines of an outcome under its number.
#[tactic(auto, unfolding(crate::specs::OutcomeText::outcome_text))]
fn put_outcome(
    out: &mut Vec<u8>,
    word: Word,
    sense: Sense,
    number: u64,
    outcome: &Outcome,
) -> Result<(), AllocError>
    ensures { OnOk result (out.new.items ≡ out.old.items ++ outcome_text word sense (number, outcome.now)) }
{
    put_bytes(out, word_of_outcomes(word))?;
    put_numbered(out, b" ", number)?;
    put_end(out, sense, outcome.place, &outcome.end)
}

/// Appends the lines of the outcomes.
#[tactic(auto, using(crate::proofs::Numbered::numbered_more), unfolding(crate::specs::OutcomeText::outcome_lines))]
fn put_outcomes(
    out: &mut Vec<u8>,
    word: Word,
    sense: Sense,
    outcomes: &[Outcome],
) -> Result<(), AllocError>
    ensures { OnOk result (out.new.items ≡ out.old.items ++ outcome_lines word sense outcomes.now) }
{
    let mut number = 0;
    for outcome in outcomes {
        number += 1;
        put_outcome(out, word, sense, number, outcome)?;
    }
    Ok(())
}

/// Appends the line that counts the outcomes.
#[tactic(auto, unfolding(crate::specs::OutcomeText::count_line))]
fn put_counts(out: &mut Vec<u8>, outcomes: &[Outcome]) -> Result<(), AllocError>
    ensures { OnOk result (out.new.items ≡ out.old.items ++ count_line outcomes.now) }
{
    put_setting_counts(out, outcomes)
}

/// Appends the line that counts the warm outcomes, where they are counted.
#[tactic(auto, unfolding(crate::specs::OutcomeText::warm_line))]
fn put_warm(out: &mut Vec<u8>, warm: Option<u32>) -> Result<(), AllocError>
    ensures { OnOk result (out.new.items ≡ out.old.items ++ warm_line warm) }
{
    match warm {
        Some(count) => {
            put_numbered(out, b"warm ", u64::from(count))?;
            put_bytes(out, b"\n")
        }
        None => Ok(()),
    }
}

/// The commands, with their operands.
const USAGE: &[u8] =
    b"usage: dcx check SCRIPT | solve SCRIPT | resolve SCRIPT SETTINGS | certificate SCRIPT SETTINGS | certify SCRIPT SETTINGS CERT | trial N | migrate SCRIPT SETTINGS CERT | range SCRIPT SETTINGS PARAM | iis SCRIPT SETTINGS\n";

/// The report of words that are of no command, whose bytes are there and want no memory.
#[tactic(auto, unfolding(crate::specs::ReportText::text_of))]
pub fn usage_report() -> &'static [u8]
    ensures { result.now ≡ text_of Run.Usage }
{
    USAGE
}

/// The report of a run that wants memory, whose bytes are there and want none.
#[tactic(auto, unfolding(crate::specs::ReportText::text_of))]
pub fn memory_report() -> &'static [u8]
    ensures { result.now ≡ text_of Run.Memory }
{
    b"want of memory\n"
}

/// Appends the report of a run.
#[tactic(auto, unfolding(crate::specs::ReportText::text_of))]
fn put_run(out: &mut Vec<u8>, run: &Run) -> Result<(), AllocError>
    ensures { OnOk result (out.new.items ≡ out.old.items ++ text_of run.now) }
{
    match run {
        Run::Usage => put_bytes(out, USAGE),
        Run::Refused(refusal) => put_refusal(out, refusal),
        Run::Checked(checked) => put_checked(out, checked),
        Run::Solved {
            word,
            sense,
            outcomes,
            warm,
        } => {
            let outcomes = outcomes.as_slice();
            put_outcomes(out, *word, *sense, outcomes)?;
            put_counts(out, outcomes)?;
            put_warm(out, *warm)
        }
        Run::Certificates { text, .. } => put_bytes(out, text.as_slice()),
        Run::Certified { sections } => put_certified(out, *sections),
        Run::CertRefused { section, fault } => put_cert_refused(out, *section, fault),
        Run::Trial { size, outcomes } => {
            let outcomes = outcomes.as_slice();
            put_trial(out, *size, outcomes)?;
            put_counts(out, outcomes)
        }
        Run::Filtered { outcomes } => {
            let outcomes = outcomes.as_slice();
            put_filters(out, outcomes)?;
            put_filter_counts(out, outcomes)
        }
        Run::Ranged {
            parameter,
            sense,
            outcomes,
        } => {
            let outcomes = outcomes.as_slice();
            put_ranges(out, parameter, *sense, outcomes)?;
            put_range_counts(out, outcomes)
        }
        Run::ReadFault => put_bytes(out, b"fault read\n"),
        Run::Memory => put_bytes(out, memory_report()),
    }
}

/// The bytes of the report of a run. Each line ends with a line feed. Fails only for want of memory.
pub fn report_text(alloc: Global, run: &Run) -> Result<Bytes, AllocError>
    ensures { IfOk result (λ bytes. bytes ≡ text_of run.now) }
{
    let mut out = Vec::new(alloc);
    put_run(&mut out, run)?;
    Ok(Bytes::from_vec(out))
}
