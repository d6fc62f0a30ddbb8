//! Settings files.
use crate::lines::{CaseFault, Numbers, Size, put_between};
use crate::tokens::faults::put_fault;
use crate::tokens::spelling::bytes_of;
use dcx_settings::{SettingItem, SettingLine, Settings, parse_settings};
use dcx_tokens::ReadFault;
use std::alloc::{AllocError, Global};

/// `BYTES` for how many settings they spell, or the fault, and `items | BYTES` for the settings.
pub(crate) fn put_of_file(
    alloc: Global,
    first: &str,
    rest: &[&str],
    out: &mut String,
) -> Result<(), CaseFault> {
    let (written, has_items) = match *rest {
        [] => (first, false),
        [written] if first == "items" => (written, true),
        _ => return Err(CaseFault::Unreadable),
    };
    told(&read(alloc, written)?, has_items, out)
}

/// The settings that bytes spell.
fn read(alloc: Global, written: &str) -> Result<Result<Settings, ReadFault>, CaseFault> {
    Ok(parse_settings(alloc, &bytes_of(alloc, written)?))
}

fn told(
    read: &Result<Settings, ReadFault>,
    has_items: bool,
    out: &mut String,
) -> Result<(), CaseFault> {
    match read {
        Ok(settings) if has_items => Ok(put_settings(out, settings.as_slice())?),
        Ok(settings) => Ok(write!(out, "{}", settings.as_slice().len())?),
        Err(fault) => put_fault(out, *fault),
    }
}

/// A value under its name.
fn put_item(out: &mut String, item: &SettingItem) -> Result<(), AllocError> {
    let name = str::from_utf8(item.name.as_slice()).unwrap_or("no text");
    let size = Size(item.shape.sides());
    write!(out, " {name} {size} {},", Numbers(item.numbers.as_slice()))
}

/// A setting, in braces.
fn put_line(out: &mut String, line: &SettingLine) -> Result<(), AllocError> {
    out.push_str("{")?;
    for item in line.as_slice() {
        put_item(out, item)?;
    }
    out.push_str(" }")
}

fn put_settings(out: &mut String, settings: &[SettingLine]) -> Result<(), AllocError> {
    for (k, line) in settings.iter().enumerate() {
        put_between(out, k, " ")?;
        put_line(out, line)?;
    }
    Ok(())
}
