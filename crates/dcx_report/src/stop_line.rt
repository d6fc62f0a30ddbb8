//! Appends that a setting is stopped, and why.
ghost use Rattle.std.specs.Prelude.{◌≡◌, ◌++◌, None, OnOk, codes, decimal};
ghost use Rattle.dcx_frac.specs.Text.{frac_text};
ghost use Rattle.dcx_lines.specs.Pieces.{shape_text};
ghost use Rattle.dcx_report.specs.Pieces.{passes_text};
ghost use Rattle.dcx_report.specs.StopText.{entry_at_text, site_text, stop_name, stop_details, stopped_text};

use crate::Stop;
use crate::pieces::{put_both, put_numbered, put_passes, put_place};
use dcx_answer::Site;
use dcx_frac::{Frac, Passes};
use dcx_lines::{put_bytes, put_frac, put_shape};
use dcx_shape::{Name, Place, Shape};
use std::alloc::AllocError;

/// Appends the place of a node, where there is one, and an entry.
#[tactic(auto, unfolding(crate::specs::StopText::entry_at_text))]
fn put_entry_at(out: &mut Vec<u8>, place: Option<Place>, entry: u32) -> Result<(), AllocError>
    ensures { OnOk result (out.new.items ≡ out.old.items ++ entry_at_text place entry) }
{
    if let Some(place) = place {
        put_bytes(out, b" at ")?;
        put_place(out, place)?;
    }
    put_numbered(out, b" entry ", u64::from(entry))
}

/// Appends a name and two shapes, each behind a blank.
fn put_shapes(
    out: &mut Vec<u8>,
    name: &Name,
    declared: &Shape,
    given: &Shape,
) -> Result<(), AllocError>
    ensures { OnOk result (out.new.items ≡ out.old.items ++ (codes " " ++ name.now ++ codes " " ++ shape_text declared.now ++ codes " " ++ shape_text given.now)) }
{
    put_both(out, b" ", name.as_slice())?;
    put_bytes(out, b" ")?;
    put_shape(out, declared)?;
    put_bytes(out, b" ")?;
    put_shape(out, given)
}

/// Appends a name, an entry, and the number there.
fn put_entry_of(out: &mut Vec<u8>, name: &Name, entry: u32, value: &Frac) -> Result<(), AllocError>
    ensures { OnOk result (out.new.items ≡ out.old.items ++ (codes " " ++ name.now ++ codes " entry " ++ decimal entry ++ codes " value " ++ frac_text value.now)) }
{
    put_both(out, b" ", name.as_slice())?;
    put_numbered(out, b" entry ", u64::from(entry))?;
    put_bytes(out, b" value ")?;
    put_frac(out, value)
}

/// Appends a word, a row, and an operation that passes 128 bits there.
fn put_row(out: &mut Vec<u8>, word: &[u8], row: u32, passes: &Passes) -> Result<(), AllocError>
    ensures { OnOk result (out.new.items ≡ out.old.items ++ (word.now ++ decimal row ++ passes_text passes.now)) }
{
    put_numbered(out, word, u64::from(row))?;
    put_passes(out, passes)
}

/// Appends where an operation passes 128 bits, and which.
#[tactic(auto, unfolding(crate::specs::StopText::site_text))]
fn put_site(out: &mut Vec<u8>, place: Option<Place>, site: &Site) -> Result<(), AllocError>
    ensures { OnOk result (out.new.items ≡ out.old.items ++ site_text place site.now) }
{
    match site {
        Site::Node { entry, passes, .. } => {
            put_entry_at(out, place, *entry)?;
            put_passes(out, passes)
        }
        Site::Row { row, passes } => put_row(out, b" row ", *row, passes),
        Site::Map { row, passes } => put_row(out, b" map ", *row, passes),
        Site::Answer { row, passes } => put_row(out, b" answer ", *row, passes),
        Site::Pivot {
            pivots,
            row,
            column,
        } => {
            put_numbered(out, b" pivot ", *pivots)?;
            put_numbered(out, b" row ", u64::from(*row))?;
            put_numbered(out, b" column ", u64::from(*column))
        }
    }
}

/// The number and the name of a stop.
#[tactic(auto, unfolding(crate::specs::StopText::stop_name))]
pub(crate) fn name_of_stop(stop: &Stop) -> &'static [u8]
    ensures { result.now ≡ stop_name stop.now }
{
    match stop {
        Stop::UnknownParam { .. } => b"21 UnknownParam",
        Stop::MissingParam { .. } => b"22 MissingParam",
        Stop::ParamShape { .. } => b"23 ParamShape",
        Stop::ParamSign { .. } => b"24 ParamSign",
        Stop::ZeroDivisor { .. } => b"25 ZeroDivisor",
        Stop::Wide(_) => b"26 Wide",
        Stop::PivotLimit { .. } => b"27 PivotLimit",
        Stop::TooLarge { .. } => b"28 TooLarge",
        Stop::Memory => b"31 Memory",
    }
}

/// Appends what a stop carries, with the place of the node that it names.
#[tactic(auto, unfolding(crate::specs::StopText::stop_details))]
pub(crate) fn put_details(
    out: &mut Vec<u8>,
    place: Option<Place>,
    stop: &Stop,
) -> Result<(), AllocError>
    ensures { OnOk result (out.new.items ≡ out.old.items ++ stop_details place stop.now) }
{
    match stop {
        Stop::UnknownParam { name } | Stop::MissingParam { name } => {
            put_both(out, b" ", name.as_slice())
        }
        Stop::ParamShape {
            name,
            declared,
            given,
        } => put_shapes(out, name, declared, given),
        Stop::ParamSign { name, entry, value } => put_entry_of(out, name, *entry, value),
        Stop::ZeroDivisor { entry, .. } => put_entry_at(out, place, *entry),
        Stop::Wide(site) => put_site(out, place, site),
        Stop::PivotLimit { count } => put_numbered(out, b" ", *count),
        Stop::TooLarge { rows, columns } => {
            put_numbered(out, b" rows ", u64::from(*rows))?;
            put_numbered(out, b" columns ", u64::from(*columns))
        }
        Stop::Memory => Ok(()),
    }
}

/// Appends that a setting is stopped, and why, behind its number.
#[tactic(auto, unfolding(crate::specs::StopText::stopped_text))]
pub(crate) fn put_stopped(
    out: &mut Vec<u8>,
    place: Option<Place>,
    stop: &Stop,
) -> Result<(), AllocError>
    ensures { OnOk result (out.new.items ≡ out.old.items ++ stopped_text place stop.now) }
{
    put_both(out, b" stopped ", name_of_stop(stop))?;
    put_details(out, place, stop)?;
    put_bytes(out, b"\n")
}

/// Appends that a setting is stopped, and why, where the stop names no node.
pub(crate) fn put_stop(out: &mut Vec<u8>, stop: Stop) -> Result<(), AllocError>
    ensures { OnOk result (out.new.items ≡ out.old.items ++ stopped_text None stop) }
{
    let put = put_stopped(out, None, &stop);
    drop(stop);
    put
}
