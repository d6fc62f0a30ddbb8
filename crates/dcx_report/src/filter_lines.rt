//! Appends the lines of settings at which constraints are filtered.
ghost use Rattle.std.specs.Prelude.{◌≡◌, ◌++◌, IfSome, OnOk, slice_get, length};
ghost use Rattle.std.specs.List.{flat_map, zip};
ghost use Rattle.dcx_report.specs.FilterText.{member_text, without_lines, points_lines, filtered_text, step_text, filter_stop_text};
ghost use Rattle.dcx_report.specs.FilterText.{filter_end_text, filter_text, filter_lines, filter_count_line};

use crate::answer_lines::put_var_lines;
use crate::counts::put_setting_counts;
use crate::pieces::put_numbered;
use crate::stop_line::{name_of_stop, put_details, put_stop, put_stopped};
use crate::{FilterEnd, FilterOutcome, FilterStop, Filtered, Stop};
use dcx_lines::put_bytes;
use dcx_point::Point;
use dcx_shape::Place;
use std::alloc::AllocError;

/// Appends the number of a constraint, counted from 1.
#[tactic(auto, unfolding(crate::specs::FilterText::member_text))]
fn put_member(out: &mut Vec<u8>, member: u32) -> Result<(), AllocError>
    ensures { OnOk result (out.new.items ≡ out.old.items ++ member_text member) }
{
    put_numbered(out, b" ", u64::from(member) + 1)
}

/// Appends the numbers of constraints.
fn put_members(out: &mut Vec<u8>, members: &[u32]) -> Result<(), AllocError>
    ensures { OnOk result (out.new.items ≡ out.old.items ++ flat_map member_text members.now) }
{
    for member in members {
        put_member(out, *member)?;
    }
    Ok(())
}

/// Appends a constraint that is left out, and a point that keeps the others.
#[tactic(auto, unfolding(crate::specs::FilterText::without_lines))]
fn put_without(out: &mut Vec<u8>, member: u32, point: &Point) -> Result<(), AllocError>
    ensures { OnOk result (out.new.items ≡ out.old.items ++ without_lines (member, point.now)) }
{
    put_bytes(out, b"without")?;
    put_member(out, member)?;
    put_bytes(out, b"\n")?;
    put_var_lines(out, point)
}

/// How many constraints have a point.
fn count_of_pairs(members: &[u32], points: &[Point]) -> usize
    ensures { result ≡ length (zip members.now points.now) }
{
    if members.len() < points.len() {
        members.len()
    } else {
        points.len()
    }
}

/// Appends the lines of constraint `i`, where it has a point.
fn put_pair(
    out: &mut Vec<u8>,
    members: &[u32],
    points: &[Point],
    i: usize,
) -> Result<(), AllocError>
    ensures { OnOk result (IfSome (slice_get (zip members.now points.now) i) (λ pair. out.new.items ≡ out.old.items ++ without_lines pair)) }
{
    let Some(member) = members.get(i) else {
        return Ok(());
    };
    let Some(point) = points.get(i) else {
        return Ok(());
    };
    put_without(out, *member, point)
}

/// Appends the lines of constraints, each with its point.
#[tactic(auto, unfolding(crate::specs::FilterText::points_lines))]
fn put_points(out: &mut Vec<u8>, members: &[u32], points: &[Point]) -> Result<(), AllocError>
    ensures { OnOk result (out.new.items ≡ out.old.items ++ points_lines members.now points.now) }
{
    'pairs: for i in 0..count_of_pairs(members, points) {
        put_pair(out, members, points, i)?;
    }
    Ok(())
}

/// Appends what is found, behind the number of its setting.
#[tactic(auto, unfolding(crate::specs::FilterText::filtered_text))]
fn put_filtered(out: &mut Vec<u8>, found: &Filtered) -> Result<(), AllocError>
    ensures { OnOk result (out.new.items ≡ out.old.items ++ filtered_text found.now) }
{
    match found {
        Filtered::Feasible { point } => {
            put_bytes(out, b" feasible\n")?;
            put_var_lines(out, point)
        }
        Filtered::Infeasible {
            members,
            points,
            ..
        } => {
            let members = members.as_slice();
            put_bytes(out, b" infeasible constraints")?;
            put_members(out, members)?;
            put_bytes(out, b"\n")?;
            put_points(out, members, points.as_slice())
        }
    }
}

/// Appends that a step of the filter is stopped.
#[tactic(auto, unfolding(crate::specs::FilterText::step_text))]
fn put_step(out: &mut Vec<u8>, step: u32) -> Result<(), AllocError>
    ensures { OnOk result (out.new.items ≡ out.old.items ++ step_text step) }
{
    put_numbered(out, b" stopped 37 Filter step ", u64::from(step))?;
    put_bytes(out, b" ")
}

/// Appends that a step of the filter is stopped, and why, behind the number of its setting.
#[tactic(auto, unfolding(crate::specs::FilterText::filter_stop_text))]
fn put_filter_stop(out: &mut Vec<u8>, stop: &FilterStop) -> Result<(), AllocError>
    ensures { OnOk result (out.new.items ≡ out.old.items ++ filter_stop_text stop.now) }
{
    match stop {
        FilterStop::Step { step, stop } => {
            put_step(out, *step)?;
            put_bytes(out, name_of_stop(stop))?;
            put_details(out, None, stop)?;
            put_bytes(out, b"\n")
        }
        FilterStop::Memory => put_stop(out, Stop::Memory),
    }
}

/// Appends how a setting ends, behind its number.
#[tactic(auto, unfolding(crate::specs::FilterText::filter_end_text))]
fn put_filter_end(
    out: &mut Vec<u8>,
    place: Option<Place>,
    end: &FilterEnd,
) -> Result<(), AllocError>
    ensures { OnOk result (out.new.items ≡ out.old.items ++ filter_end_text place end.now) }
{
    match end {
        FilterEnd::Filtered(found) => put_filtered(out, found),
        FilterEnd::Filter(stop) => put_filter_stop(out, stop),
        FilterEnd::Stop(stop) => put_stopped(out, place, stop),
    }
}

/// Appends the lines of a setting under its number.
#[tactic(auto, unfolding(crate::specs::FilterText::filter_text))]
fn put_filter(out: &mut Vec<u8>, number: u64, outcome: &FilterOutcome) -> Result<(), AllocError>
    ensures { OnOk result (out.new.items ≡ out.old.items ++ filter_text (number, outcome.now)) }
{
    put_numbered(out, b"setting ", number)?;
    put_filter_end(out, outcome.place, &outcome.end)
}

/// Appends the lines of the settings.
#[tactic(auto, using(crate::proofs::Numbered::numbered_more), unfolding(crate::specs::FilterText::filter_lines))]
pub(crate) fn put_filters(out: &mut Vec<u8>, outcomes: &[FilterOutcome]) -> Result<(), AllocError>
    ensures { OnOk result (out.new.items ≡ out.old.items ++ filter_lines outcomes.now) }
{
    let mut number = 0;
    for outcome in outcomes {
        number += 1;
        put_filter(out, number, outcome)?;
    }
    Ok(())
}

/// Appends the line that counts the settings.
#[tactic(auto, unfolding(crate::specs::FilterText::filter_count_line))]
pub(crate) fn put_filter_counts(
    out: &mut Vec<u8>,
    outcomes: &[FilterOutcome],
) -> Result<(), AllocError>
    ensures { OnOk result (out.new.items ≡ out.old.items ++ filter_count_line outcomes.now) }
{
    put_setting_counts(out, outcomes)
}
