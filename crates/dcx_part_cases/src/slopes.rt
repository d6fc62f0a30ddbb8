//! The slopes that coefficients of the results and weights of the rows give.
use crate::calls::atom;
use crate::lines::{CaseFault, Numbers, numbers};
use crate::parts::{all, both, put_shown, put_stop};
use dcx_atom::{Atom, SlopeStop};
use dcx_frac::{Frac, Fracs};
use dcx_shape::Shape;
use std::alloc::Global;

/// `CALL | SHAPE | .. | COEFFICIENTS | WEIGHTS => SLOPES`: the slopes by entry of the arguments, the first condition that the
/// weights break, as `entry 0: 4 against 3`, or the operation that passes.
pub(crate) fn put_slopes(
    alloc: Global,
    first: &str,
    rest: &[&str],
    out: &mut String,
) -> Result<(), CaseFault> {
    match *rest {
        [ref args @ .., coefficients, weights] => {
            let shapes = all(alloc, args)?;
            let slopes = formed(alloc, first, &shapes, coefficients, weights);
            put_formed(out, &slopes)
        }
        _ => Err(CaseFault::Unreadable),
    }
}

/// The slopes of a call, whose coefficients and weights are written.
fn formed(
    alloc: Global,
    text: &str,
    shapes: &[Shape],
    of_coefficients: &str,
    of_weights: &str,
) -> Result<Result<Fracs, SlopeStop>, CaseFault> {
    let atom = atom(text)?;
    let (coefficients, weights) = both(
        numbers(alloc, of_coefficients),
        numbers(alloc, of_weights),
    )?;
    slopes_of(alloc, &atom, shapes, &coefficients, &weights)
}

/// The slopes of any call, where there is a coefficient for each result entry and a weight for each row.
fn slopes_of<A: Atom>(
    alloc: Global,
    atom: &A,
    args: &[Shape],
    coefficients: &[Frac],
    weights: &[Frac],
) -> Result<Result<Fracs, SlopeStop>, CaseFault> {
    let Some(shape) = atom.shape(args) else {
        return Err(CaseFault::Unreadable);
    };
    if coefficients.len() != shape.size() as usize {
        return Err(CaseFault::Unreadable);
    }
    let graph = atom.graph(alloc, args)?;
    let rows = graph.rows.as_slice();
    if weights.len() != rows.len() {
        return Err(CaseFault::Unreadable);
    }
    Ok(atom.slopes(alloc, args, coefficients, weights))
}

/// Writes slopes, or why there are none.
fn put_formed(
    out: &mut String,
    slopes: &Result<Result<Fracs, SlopeStop>, CaseFault>,
) -> Result<(), CaseFault> {
    match slopes {
        Ok(Ok(slopes)) => put_shown(out, &Numbers(slopes.as_slice())),
        Ok(Err(stop)) => put_stop(out, *stop),
        Err(fault) => Err(*fault),
    }
}
