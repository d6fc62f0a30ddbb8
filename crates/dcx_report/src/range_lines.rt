//! Appends the lines of settings at which a parameter's range is told.
ghost use Rattle.std.specs.Prelude.{◌≡◌, ◌++◌, OnOk};
ghost use Rattle.dcx_report.specs.RangeText.{bound_text, span_text, course_text, ranged_text, range_stop_text, range_end_text, range_text, range_lines, range_count_line};

use crate::answer_lines::user_number;
use crate::counts::put_setting_counts;
use crate::pieces::{put_both, put_numbered, put_passes};
use crate::stop_line::{put_stop, put_stopped};
use crate::{RangeEnd, RangeOutcome, RangeStop, Ranged, Sense, Stop};
use dcx_frac::{Frac, Passes};
use dcx_lines::{put_bytes, put_frac};
use dcx_shape::{Name, Place};
use std::alloc::AllocError;

/// Appends an end of a span, if it has one.
#[tactic(auto, unfolding(crate::specs::RangeText::bound_text))]
fn put_bound(out: &mut Vec<u8>, bound: Option<Frac>) -> Result<(), AllocError>
    ensures { OnOk result (out.new.items ≡ out.old.items ++ bound_text bound) }
{
    match bound {
        Some(bound) => put_frac(out, &bound),
        None => put_bytes(out, b"none"),
    }
}

/// Appends from where to where a parameter may move.
#[tactic(auto, unfolding(crate::specs::RangeText::span_text))]
fn put_span(out: &mut Vec<u8>, low: Option<Frac>, high: Option<Frac>) -> Result<(), AllocError>
    ensures { OnOk result (out.new.items ≡ out.old.items ++ span_text low high) }
{
    put_bytes(out, b" from ")?;
    put_bound(out, low)?;
    put_bytes(out, b" to ")?;
    put_bound(out, high)
}

/// Appends the line that the user's objective goes along.
#[tactic(auto, unfolding(crate::specs::RangeText::course_text))]
fn put_course(
    out: &mut Vec<u8>,
    sense: Sense,
    constant: Frac,
    slope: Frac,
) -> Result<(), AllocError>
    ensures { OnOk result (out.new.items ≡ out.old.items ++ course_text sense constant slope) }
{
    put_bytes(out, b" value ")?;
    put_frac(out, &user_number(sense, constant))?;
    put_bytes(out, b" slope ")?;
    put_frac(out, &user_number(sense, slope))
}

/// Appends what is told of the parameter, behind the number of its setting.
#[tactic(auto, unfolding(crate::specs::RangeText::ranged_text))]
fn put_ranged(
    out: &mut Vec<u8>,
    parameter: &Name,
    sense: Sense,
    ranged: &Ranged,
) -> Result<(), AllocError>
    ensures { OnOk result (out.new.items ≡ out.old.items ++ ranged_text parameter.now sense ranged.now) }
{
    match ranged {
        Ranged::Span {
            low,
            high,
            constant,
            slope,
        } => {
            put_both(out, b" range ", parameter.as_slice())?;
            put_span(out, *low, *high)?;
            put_course(out, sense, *constant, *slope)?;
            put_bytes(out, b"\n")
        }
        Ranged::Infeasible => put_bytes(out, b" infeasible\n"),
        Ranged::Unbounded => put_bytes(out, b" unbounded\n"),
    }
}

/// Appends that an operation of the range passes 128 bits.
#[tactic(auto, unfolding(crate::specs::RangeText::range_stop_text))]
fn put_range_wide(out: &mut Vec<u8>, passes: &Passes) -> Result<(), AllocError>
    ensures { OnOk result (out.new.items ≡ out.old.items ++ range_stop_text (RangeStop.RangeWide passes.now)) }
{
    put_bytes(out, b" stopped 36 RangeWide")?;
    put_passes(out, passes)?;
    put_bytes(out, b"\n")
}

/// Appends that the range is stopped, and why, behind the number of its setting.
#[tactic(auto, unfolding(crate::specs::RangeText::range_stop_text))]
fn put_range_stop(out: &mut Vec<u8>, stop: &RangeStop) -> Result<(), AllocError>
    ensures { OnOk result (out.new.items ≡ out.old.items ++ range_stop_text stop.now) }
{
    match stop {
        RangeStop::Wide(site) => put_stop(out, Stop::Wide(*site)),
        RangeStop::PivotLimit { count } => put_stop(out, Stop::PivotLimit { count: *count }),
        RangeStop::RangeWide(passes) => put_range_wide(out, passes),
        RangeStop::Memory => put_stop(out, Stop::Memory),
    }
}

/// Appends how a setting ends, behind its number.
#[tactic(auto, unfolding(crate::specs::RangeText::range_end_text))]
fn put_range_end(
    out: &mut Vec<u8>,
    parameter: &Name,
    sense: Sense,
    place: Option<Place>,
    end: &RangeEnd,
) -> Result<(), AllocError>
    ensures { OnOk result (out.new.items ≡ out.old.items ++ range_end_text parameter.now sense place end.now) }
{
    match end {
        RangeEnd::Ranged(ranged) => put_ranged(out, parameter, sense, ranged),
        RangeEnd::Range(stop) => put_range_stop(out, stop),
        RangeEnd::Stop(stop) => put_stopped(out, place, stop),
    }
}

/// Appends the line of a setting under its number.
#[tactic(auto, unfolding(crate::specs::RangeText::range_text))]
fn put_range(
    out: &mut Vec<u8>,
    parameter: &Name,
    sense: Sense,
    number: u64,
    outcome: &RangeOutcome,
) -> Result<(), AllocError>
    ensures { OnOk result (out.new.items ≡ out.old.items ++ range_text parameter.now sense (number, outcome.now)) }
{
    put_numbered(out, b"setting ", number)?;
    put_range_end(out, parameter, sense, outcome.place, &outcome.end)
}

/// Appends the lines of the settings.
#[tactic(auto, using(crate::proofs::Numbered::numbered_more), unfolding(crate::specs::RangeText::range_lines))]
pub(crate) fn put_ranges(
    out: &mut Vec<u8>,
    parameter: &Name,
    sense: Sense,
    outcomes: &[RangeOutcome],
) -> Result<(), AllocError>
    ensures { OnOk result (out.new.items ≡ out.old.items ++ range_lines parameter.now sense outcomes.now) }
{
    let mut number = 0;
    for outcome in outcomes {
        number += 1;
        put_range(out, parameter, sense, number, outcome)?;
    }
    Ok(())
}

/// Appends the line that counts the settings.
#[tactic(auto, unfolding(crate::specs::RangeText::range_count_line))]
pub(crate) fn put_range_counts(
    out: &mut Vec<u8>,
    outcomes: &[RangeOutcome],
) -> Result<(), AllocError>
    ensures { OnOk result (out.new.items ≡ out.old.items ++ range_count_line outcomes.now) }
{
    put_setting_counts(out, outcomes)
}
