//! Appends the lines of a trial.
ghost use Rattle.std.specs.Prelude.{◌≡◌, ◌++◌, OnOk, codes};
ghost use Rattle.dcx_frac.specs.Text.{frac_text};
ghost use Rattle.dcx_report.specs.TrialText.{answer_kind, trial_end, trial_line, setting_lines, trial_lines};

use crate::pieces::put_numbered;
use crate::stop_line::put_stopped;
use crate::whole_lines::{put_branch_stop, put_whole};
use crate::{Answer, Outcome, OutcomeEnd, Sense};
use dcx_frac::Frac;
use dcx_lines::{put_bytes, put_frac};
use dcx_shape::Place;
use std::alloc::AllocError;

/// Appends that an answer is optimal, with its value.
fn put_optimal(out: &mut Vec<u8>, value: Frac) -> Result<(), AllocError>
    ensures { OnOk result (out.new.items ≡ out.old.items ++ (codes " optimal value " ++ frac_text value)) }
{
    put_bytes(out, b" optimal value ")?;
    put_frac(out, &value)
}

/// Appends the kind of an answer, with its value where it is optimal.
#[tactic(auto, unfolding(crate::specs::TrialText::answer_kind))]
fn put_kind(out: &mut Vec<u8>, answer: &Answer) -> Result<(), AllocError>
    ensures { OnOk result (out.new.items ≡ out.old.items ++ answer_kind answer.now) }
{
    match answer {
        Answer::Optimal { value, .. } => put_optimal(out, *value),
        Answer::Infeasible { .. } => put_bytes(out, b" infeasible"),
        Answer::Unbounded { .. } => put_bytes(out, b" unbounded"),
    }
}

/// Appends how a setting ends, behind its number.
#[tactic(auto, unfolding(crate::specs::TrialText::trial_end))]
fn put_trial_end(
    out: &mut Vec<u8>,
    place: Option<Place>,
    end: &OutcomeEnd,
) -> Result<(), AllocError>
    ensures { OnOk result (out.new.items ≡ out.old.items ++ trial_end place end.now) }
{
    match end {
        OutcomeEnd::Answer(answer) => {
            put_kind(out, answer)?;
            put_bytes(out, b"\n")
        }
        OutcomeEnd::Whole(answer) => put_whole(out, Sense::Minimize, answer),
        OutcomeEnd::Branch(stop) => put_branch_stop(out, stop),
        OutcomeEnd::Stop(stop) => put_stopped(out, place, stop),
    }
}

/// Appends the line of a setting under its number.
#[tactic(auto, unfolding(crate::specs::TrialText::trial_line))]
fn put_trial_line(out: &mut Vec<u8>, number: u64, outcome: &Outcome) -> Result<(), AllocError>
    ensures { OnOk result (out.new.items ≡ out.old.items ++ trial_line (number, outcome.now)) }
{
    put_numbered(out, b"setting ", number)?;
    put_trial_end(out, outcome.place, &outcome.end)
}

/// Appends the lines of the settings.
#[tactic(auto, using(crate::proofs::Numbered::numbered_more), unfolding(crate::specs::TrialText::setting_lines))]
fn put_setting_lines(out: &mut Vec<u8>, outcomes: &[Outcome]) -> Result<(), AllocError>
    ensures { OnOk result (out.new.items ≡ out.old.items ++ setting_lines outcomes.now) }
{
    let mut number = 0;
    for outcome in outcomes {
        number += 1;
        put_trial_line(out, number, outcome)?;
    }
    Ok(())
}

/// Appends the size of a trial, and then its settings.
#[tactic(auto, unfolding(crate::specs::TrialText::trial_lines))]
pub(crate) fn put_trial(
    out: &mut Vec<u8>,
    size: u32,
    outcomes: &[Outcome],
) -> Result<(), AllocError>
    ensures { OnOk result (out.new.items ≡ out.old.items ++ trial_lines size outcomes.now) }
{
    put_numbered(out, b"trial ", u64::from(size))?;
    put_bytes(out, b"\n")?;
    put_setting_lines(out, outcomes)
}
