//! Arrays as they are written: the shape, and then the entries row by row.
use crate::lines::fault::CaseFault;
use crate::lines::fractions::{Numbers, Passing};
use crate::lines::sizes::{Size, shape};
use crate::lines::word::fraction;
use dcx_atom::{Array, ValueStop};
use dcx_frac::{Frac, Fracs};
use dcx_shape::Shape;
use std::alloc::{AllocError, Global};
use std::fmt::{self, Display};

/// The fractions that stand in a text. `Unreadable` where a word is none.
pub(crate) fn numbers(alloc: Global, text: &str) -> Result<Vec<Frac>, CaseFault> {
    let mut numbers = Vec::new(alloc);
    for word in text.split_whitespace() {
        numbers.push(fraction(word)?)?;
    }
    Ok(numbers)
}

/// As many numbers as a shape has entries, which begin anew where they end.
fn filling(alloc: Global, shape: Shape, numbers: &[Frac]) -> Result<Vec<Frac>, AllocError> {
    let mut entries = Vec::new(alloc);
    for number in numbers.iter().cycle().take(shape.size() as usize) {
        entries.push(*number)?;
    }
    Ok(entries)
}

/// The array of these numbers, which begin anew where they end. `Unreadable` where there are none.
fn array_of(alloc: Global, shape: Shape, numbers: &[Frac]) -> Result<Array, CaseFault> {
    let entries = filling(alloc, shape, numbers)?;
    if entries.len() != shape.size() as usize {
        return Err(CaseFault::Unreadable);
    }
    Ok(Array {
        shape,
        entries: Fracs::from_vec(entries),
    })
}

/// The array that a text says; where it has fewer numbers than entries they begin anew. `Unreadable` where it says none.
pub(crate) fn array(alloc: Global, text: &str) -> Result<Array, CaseFault> {
    let (size, rest) = text.split_once(' ').unwrap_or((text, "0"));
    let shape = shape(size)?;
    let numbers = numbers(alloc, rest)?;
    array_of(alloc, shape, &numbers)
}

/// An array.
#[derive(Clone, Copy)]
struct Filled<'a>(&'a Array);

impl Display for Filled<'_> {
    fn fmt<W: fmt::Write>(&self, f: &mut fmt::Formatter<W>) -> fmt::Result {
        let size = Size(self.0.shape.sides());
        write!(f, "{size} {}", Numbers(self.0.entries.as_slice()))
    }
}

/// What is written, with the fault of a case where there is no memory.
fn written(done: Result<(), AllocError>) -> Result<(), CaseFault> {
    Ok(done?)
}

/// Writes a value: the array, or the first entry that stops it.
pub(crate) fn put_value(
    out: &mut String,
    value: &Result<Array, ValueStop>,
) -> Result<(), CaseFault> {
    match value {
        Ok(array) => written(write!(out, "{}", Filled(array))),
        Err(ValueStop::Memory) => Err(CaseFault::Memory),
        Err(ValueStop::ZeroDivisor { entry }) => written(write!(out, "divisor {entry} is 0")),
        Err(ValueStop::Passes { entry, passes }) => {
            written(write!(out, "entry {entry}: {}", Passing(*passes)))
        }
    }
}
