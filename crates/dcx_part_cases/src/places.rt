//! The places that slices and reshapes take.
use crate::calls::by_columns;
use crate::lines::{CaseFault, count, shape, words};
use crate::parts::put_shown;
use dcx_shape::{Places, ShapeFault, Slice, reshape_map, slice_places};
use std::alloc::{AllocError, Global};

/// `slice 5 1:4:1` for the places of a slice of so many entries, and `reshape (2,3) (3,2) columns` for those of a reshape.
pub(crate) fn put_taken(
    alloc: Global,
    first: &str,
    rest: &[&str],
    out: &mut String,
) -> Result<(), CaseFault> {
    let words = words(alloc, first)?;
    if rest.is_empty() {
        put_asked(alloc, &words, out)
    } else {
        Err(CaseFault::Unreadable)
    }
}

/// Writes the places that words ask for.
fn put_asked(alloc: Global, words: &[&str], out: &mut String) -> Result<(), CaseFault> {
    match *words {
        ["slice", size, text] => put_sliced(alloc, size, text, out),
        ["reshape", from, to, order] => put_reshaped(alloc, from, to, order, out),
        _ => Err(CaseFault::Unreadable),
    }
}

/// A bound of a slice, where there is one.
fn bound(word: &str) -> Result<Option<i64>, CaseFault> {
    if word.is_empty() {
        return Ok(None);
    }
    match word.parse::<i64>() {
        Ok(number) => Ok(Some(number)),
        Err(_) => Err(CaseFault::Unreadable),
    }
}

/// The slice of a text: `1:4`, `::-1`, ...
fn slice(text: &str) -> Result<Slice, CaseFault> {
    let (start, rest) = text.split_once(':').ok_or(CaseFault::Unreadable)?;
    let (stop, step) = rest.split_once(':').unwrap_or((rest, ""));
    Ok(Slice {
        start: bound(start)?,
        stop: bound(stop)?,
        step: bound(step)?.unwrap_or(1),
    })
}

/// Writes places.
fn put_at(out: &mut String, places: &[u32]) -> Result<(), AllocError> {
    out.push_str("at")?;
    for place in places {
        write!(out, " {place}")?;
    }
    Ok(())
}

/// Writes places, or why there are none.
fn put_places(out: &mut String, found: &Result<Places, ShapeFault>) -> Result<(), CaseFault> {
    match found {
        Ok(places) => Ok(put_at(out, places.as_slice())?),
        Err(fault) => put_shown(out, fault),
    }
}

/// Writes the places of a slice.
fn put_sliced(alloc: Global, size: &str, text: &str, out: &mut String) -> Result<(), CaseFault> {
    let (size, slice) = (count(size)?, slice(text)?);
    if slice.step == 0 {
        return Err(CaseFault::Unreadable);
    }
    put_places(out, &slice_places(alloc, size, slice))
}

/// Writes the places of a reshape.
fn put_reshaped(
    alloc: Global,
    from: &str,
    to: &str,
    order: &str,
    out: &mut String,
) -> Result<(), CaseFault> {
    let (from, to, by_columns) = (shape(from)?, shape(to)?, by_columns(order)?);
    put_places(out, &reshape_map(alloc, from, to, by_columns))
}
