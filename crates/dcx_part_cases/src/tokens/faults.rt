//! Faults and places as they are written.
use crate::lines::CaseFault;
use dcx_shape::Place;
use dcx_tokens::ReadFault;
use std::alloc::AllocError;

/// Writes a place: its line and its column.
pub(crate) fn put_place(out: &mut String, place: Place) -> Result<(), AllocError> {
    write!(out, "{}:{}", place.line, place.column)
}

/// Writes the name of a fault, and where it is.
pub(crate) fn put_fault(out: &mut String, fault: ReadFault) -> Result<(), CaseFault> {
    let (word, place) = match fault {
        ReadFault::NotText(place) => ("NotText", place),
        ReadFault::BadChar(place) => ("BadChar", place),
        ReadFault::BadNumber(place) => ("BadNumber", place),
        ReadFault::Unclosed(place) => ("Unclosed", place),
        ReadFault::Indent(place) => ("Indent", place),
        ReadFault::Unexpected(place) => ("Unexpected", place),
        ReadFault::TooDeep(place) => ("TooDeep", place),
        ReadFault::TooLong(place) => ("TooLong", place),
        ReadFault::Memory => return Err(CaseFault::Memory),
    };
    Ok(write!(out, "{word} {}:{}", place.line, place.column)?)
}
