//! Fractions as they are written: `-7`, `3/2`, and `most` for the largest whole number of 128 bits.
use crate::lines::fault::CaseFault;
use dcx_frac::{Frac, Op, Passes};
use std::fmt::{self, Display};
use std::str::FromStr;

/// A whole number of 128 bits.
#[derive(Clone, Copy)]
struct Whole(i128);

impl FromStr for Whole {
    type Err = CaseFault;

    fn from_str(word: &str) -> Result<Whole, CaseFault> {
        match word {
            "most" => Ok(Whole(i128::MAX)),
            "-most" => Ok(Whole(-i128::MAX)),
            _ => match word.parse::<i128>() {
                Ok(number) => Ok(Whole(number)),
                Err(_) => Err(CaseFault::Unreadable),
            },
        }
    }
}

impl Display for Whole {
    fn fmt<W: fmt::Write>(&self, f: &mut fmt::Formatter<W>) -> fmt::Result {
        if self.0 == i128::MAX {
            f.write_str("most")
        } else if self.0 == -i128::MAX {
            f.write_str("-most")
        } else {
            write!(f, "{}", self.0)
        }
    }
}

/// A fraction: its upper part, and behind a `/` its lower one where that isn't 1.
#[derive(Clone, Copy)]
pub(crate) struct Number(pub Frac);

impl FromStr for Number {
    type Err = CaseFault;

    fn from_str(word: &str) -> Result<Number, CaseFault> {
        let (num, den) = match word.split_once('/') {
            Some((num, den)) => (num.parse::<Whole>()?, den.parse::<Whole>()?),
            None => (word.parse::<Whole>()?, Whole(1)),
        };
        match Frac::of(num.0, den.0) {
            Some(number) => Ok(Number(number)),
            None => Err(CaseFault::Unreadable),
        }
    }
}

impl Display for Number {
    fn fmt<W: fmt::Write>(&self, f: &mut fmt::Formatter<W>) -> fmt::Result {
        let num = Whole(self.0.num());
        if self.0.den() == 1 {
            write!(f, "{num}")
        } else {
            write!(f, "{num}/{}", Whole(self.0.den()))
        }
    }
}

/// Fractions, one after another.
#[derive(Clone, Copy)]
pub(crate) struct Numbers<'a>(pub &'a [Frac]);

impl Display for Numbers<'_> {
    fn fmt<W: fmt::Write>(&self, f: &mut fmt::Formatter<W>) -> fmt::Result {
        for (k, number) in self.0.iter().enumerate() {
            if k > 0 {
                f.write_str(" ")?;
            }
            write!(f, "{}", Number(*number))?;
        }
        Ok(())
    }
}

/// An operation that passes 128 bits: `most + 1 passes`, and `2 lcm 3 passes` for a common multiple.
#[derive(Clone, Copy)]
pub(crate) struct Passing(pub Passes);

impl Display for Passing {
    fn fmt<W: fmt::Write>(&self, f: &mut fmt::Formatter<W>) -> fmt::Result {
        let sign = match self.0.op {
            Op::Add => "+",
            Op::Sub => "-",
            Op::Mul => "*",
            Op::Div => "/",
            Op::Lcm => "lcm",
        };
        write!(
            f,
            "{} {sign} {} passes",
            Number(self.0.left),
            Number(self.0.right)
        )
    }
}
