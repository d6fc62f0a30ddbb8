//! The entries of which linear calls form theirs, and the pairs of products and quotients.
use crate::calls::{linear, pairing};
use crate::lines::CaseFault;
use crate::parts::{Written, all, put_all, put_coefficient, put_word};
use dcx_affine::{EntryPairs, Pair, Pairing};
use dcx_atom::{EntryTerms, LinearOp, Triple};
use dcx_shape::Shape;
use std::alloc::{AllocError, Global};

/// `CALL | SHAPE | .. => FORM; FORM` for a linear call, and `PAIRING | SHAPE | SHAPE => PAIRS; PAIRS` for a product or a
/// quotient, each with a text for each result entry; `none` where there is no result.
pub(crate) fn put_maps(
    alloc: Global,
    first: &str,
    rest: &[&str],
    out: &mut String,
) -> Result<(), CaseFault> {
    let shapes = all(alloc, rest)?;
    match pairing(first) {
        Some(pairing) => put_pairs(alloc, pairing, &shapes, out),
        None => put_linear(alloc, first, &shapes, out),
    }
}

impl Written for Triple {
    fn put(&self, out: &mut String) -> Result<(), AllocError> {
        put_coefficient(out, self.coefficient)?;
        write!(out, "x{}.{}", self.argument, self.entry)
    }
}

impl Written for EntryTerms {
    fn put(&self, out: &mut String) -> Result<(), AllocError> {
        put_all(out, self.as_slice(), " ")
    }
}

impl Written for Pair {
    fn put(&self, out: &mut String) -> Result<(), AllocError> {
        write!(out, "{}:{}", self.left, self.right)
    }
}

impl Written for EntryPairs {
    fn put(&self, out: &mut String) -> Result<(), AllocError> {
        put_all(out, self.as_slice(), " ")
    }
}

/// Writes the forms of a linear call.
fn put_linear(
    alloc: Global,
    text: &str,
    args: &[Shape],
    out: &mut String,
) -> Result<(), CaseFault> {
    let op = linear(alloc, text)?;
    put_map(alloc, &op, args, out)
}

/// Writes the forms of any linear call.
fn put_map<L: LinearOp>(
    alloc: Global,
    op: &L,
    args: &[Shape],
    out: &mut String,
) -> Result<(), CaseFault> {
    if op.shape(args).is_none() {
        return put_word(out, "none");
    }
    let forms = op.map(alloc, args)?;
    Ok(put_all(out, forms.as_slice(), "; ")?)
}

/// Writes the pairs of a product or a quotient.
fn put_pairs(
    alloc: Global,
    pairing: Pairing,
    args: &[Shape],
    out: &mut String,
) -> Result<(), CaseFault> {
    match *args {
        [a, b] => match pairing.shape(a, b) {
            Some(_) => {
                let pairs = pairing.pairs(alloc, a, b)?;
                Ok(put_all(out, pairs.as_slice(), "; ")?)
            }
            None => put_word(out, "none"),
        },
        _ => Err(CaseFault::Unreadable),
    }
}
