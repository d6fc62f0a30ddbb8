//! Parts of a line, one after another: how they are read, and how what comes is written.
use crate::lines::{CaseFault, Number, Passing, array, count, put_between, shape};
use dcx_atom::{Array, SlopeStop};
use dcx_frac::Frac;
use dcx_shape::Shape;
use std::alloc::{AllocError, Global};
use std::fmt::Display;

/// What a part says.
pub(crate) trait Said {
    /// What a text says; `Unreadable` where it says no such thing.
    fn said(alloc: Global, text: &str) -> Result<Self, CaseFault>;
}

impl Said for Shape {
    fn said(_alloc: Global, text: &str) -> Result<Shape, CaseFault> {
        shape(text)
    }
}

impl Said for Array {
    fn said(alloc: Global, text: &str) -> Result<Array, CaseFault> {
        array(alloc, text)
    }
}

impl Said for u32 {
    fn said(_alloc: Global, text: &str) -> Result<u32, CaseFault> {
        count(text)
    }
}

/// What each part says.
pub(crate) fn all<T: Said + Drop>(alloc: Global, parts: &[&str]) -> Result<Vec<T>, CaseFault> {
    let mut all = Vec::new(alloc);
    for part in parts {
        all.push(T::said(alloc, *part)?)?;
    }
    Ok(all)
}

/// Both of two that are read, where the first fault counts.
pub(crate) fn both<T: Drop, U: Drop>(
    first: Result<T, CaseFault>,
    second: Result<U, CaseFault>,
) -> Result<(T, U), CaseFault> {
    let first = first?;
    let second = second?;
    Ok((first, second))
}

/// What is written of an item.
pub(crate) trait Written {
    /// Writes the item.
    fn put(&self, out: &mut String) -> Result<(), AllocError>;
}

/// Writes items with a text between two.
pub(crate) fn put_all<T: Written>(
    out: &mut String,
    items: &[T],
    between: &str,
) -> Result<(), AllocError> {
    for (k, item) in items.iter().enumerate() {
        put_between(out, k, between)?;
        item.put(out)?;
    }
    Ok(())
}

/// Writes a word.
pub(crate) fn put_word(out: &mut String, word: &str) -> Result<(), CaseFault> {
    Ok(out.push_str(word)?)
}

/// Writes `yes` or `no`.
pub(crate) fn put_truth(out: &mut String, holds: bool) -> Result<(), CaseFault> {
    put_word(out, if holds { "yes" } else { "no" })
}

/// Writes what can be shown.
pub(crate) fn put_shown<T: Display>(out: &mut String, shown: &T) -> Result<(), CaseFault> {
    Ok(write!(out, "{shown}")?)
}

/// Writes a coefficient before what it is of: `+`, `-`, or the number and `*`.
pub(crate) fn put_coefficient(out: &mut String, number: Frac) -> Result<(), AllocError> {
    match (number.num(), number.den()) {
        (1, 1) => out.push_str("+"),
        (-1, 1) => out.push_str("-"),
        _ => write!(out, "{}*", Number(number)),
    }
}

/// Writes both sides of a condition that weights break, or the operation that passes.
pub(crate) fn put_stop(out: &mut String, stop: SlopeStop) -> Result<(), CaseFault> {
    match stop {
        SlopeStop::Refused {
            entry,
            stated,
            found,
        } => {
            let (stated, found) = (Number(stated), Number(found));
            Ok(write!(out, "entry {entry}: {stated} against {found}")?)
        }
        SlopeStop::Passes(passes) => put_shown(out, &Passing(passes)),
        SlopeStop::Memory => Err(CaseFault::Memory),
    }
}
