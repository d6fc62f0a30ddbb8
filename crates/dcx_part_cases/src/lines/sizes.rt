//! Shapes as they are written: `()`, `(3)` and `(2,3)`.

use crate::lines::fault::CaseFault;
use dcx_shape::Sides::{Matrix, Scalar, Vector};
use dcx_shape::{Shape, Sides};
use std::fmt::{self, Display};
use std::str::FromStr;

/// The sides of an array, of any size.
#[derive(Clone, Copy)]
pub(crate) struct Size(pub Sides);

/// A side.
fn side(word: &str) -> Result<u32, CaseFault> {
    match word.parse::<u32>() {
        Ok(n) => Ok(n),
        Err(_) => Err(CaseFault::Unreadable),
    }
}

/// What stands between two brackets.
fn bracketed(word: &str) -> Result<&str, CaseFault> {
    match word.strip_prefix('(') {
        None => Err(CaseFault::Unreadable),
        Some(rest) => rest.strip_suffix(')').ok_or(CaseFault::Unreadable),
    }
}

impl FromStr for Size {
    type Err = CaseFault;

    fn from_str(word: &str) -> Result<Size, CaseFault> {
        let inner = bracketed(word)?;
        if inner.is_empty() {
            return Ok(Size(Scalar));
        }
        match inner.split_once(',') {
            None => Ok(Size(Vector(side(inner)?))),
            Some((m, n)) => Ok(Size(Matrix(side(m)?, side(n)?))),
        }
    }
}

impl Display for Size {
    fn fmt<W: fmt::Write>(&self, f: &mut fmt::Formatter<W>) -> fmt::Result {
        match self.0 {
            Scalar => f.write_str("()"),
            Vector(n) => write!(f, "({n})"),
            Matrix(m, n) => write!(f, "({m},{n})"),
        }
    }
}

/// The shape that a word says. `Unreadable` where it says none, or one of no or too many entries.
pub(crate) fn shape(word: &str) -> Result<Shape, CaseFault> {
    let made = match word.parse::<Size>()?.0 {
        Scalar => Some(Shape::scalar()),
        Vector(n) => Shape::vector(n),
        Matrix(m, n) => Shape::matrix(m, n),
    };
    made.ok_or(CaseFault::Unreadable)
}
