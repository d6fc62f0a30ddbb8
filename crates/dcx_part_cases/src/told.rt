//! Shapes, signs, trends and bends that calls tell.
use crate::calls::{atom, call};
use crate::lines::{CaseFault, Size, count};
use crate::parts::{Said, all, both, put_shown, put_word};
use dcx_atom::{Atom, Bend, Sign, Trend};
use dcx_shape::Shape;
use std::alloc::Global;

/// `sign CALL | SIGN | .. => SIGN`, and the same with `shape`, with `trend K` for an argument, and with `bend`.
pub(crate) fn put_told(
    alloc: Global,
    first: &str,
    args: &[&str],
    out: &mut String,
) -> Result<(), CaseFault> {
    match first.split_once(' ') {
        Some(("shape", text)) => put_of_shapes(alloc, text, args, out),
        Some(("bend", text)) => put_bend(out, text),
        Some((asked, text)) => put_of_signs(alloc, asked, text, args, out),
        None => Err(CaseFault::Unreadable),
    }
}

/// Writes the shape of a call, from those of the arguments.
fn put_of_shapes(
    alloc: Global,
    text: &str,
    args: &[&str],
    out: &mut String,
) -> Result<(), CaseFault> {
    let (shapes, call) = both(all::<Shape>(alloc, args), call(alloc, text))?;
    put_shape(out, call.shape(&shapes))
}

/// Writes a shape, or that there is none.
fn put_shape(out: &mut String, shape: Option<Shape>) -> Result<(), CaseFault> {
    match shape {
        Some(shape) => put_shown(out, &Size(shape.sides())),
        None => put_word(out, "none"),
    }
}

impl Said for Sign {
    fn said(_alloc: Global, text: &str) -> Result<Sign, CaseFault> {
        let (nonneg, nonpos) = match text {
            "nonneg" => (true, false),
            "nonpos" => (false, true),
            "zero" => (true, true),
            "unknown" => (false, false),
            _ => return Err(CaseFault::Unreadable),
        };
        Ok(Sign { nonneg, nonpos })
    }
}

fn sign_word(sign: Sign) -> &'static str {
    match (sign.nonneg, sign.nonpos) {
        (true, false) => "nonneg",
        (false, true) => "nonpos",
        (true, true) => "zero",
        (false, false) => "unknown",
    }
}

fn trend_word(trend: Trend) -> &'static str {
    match (trend.rising, trend.falling) {
        (true, false) => "rising",
        (false, true) => "falling",
        (true, true) => "constant",
        (false, false) => "unknown",
    }
}

/// Writes the sign of a call or its trend, from the signs of the arguments.
fn put_of_signs(
    alloc: Global,
    asked: &str,
    text: &str,
    args: &[&str],
    out: &mut String,
) -> Result<(), CaseFault> {
    let signs = all(alloc, args)?;
    match asked {
        "sign" => put_sign(alloc, text, &signs, out),
        "trend" => put_trend(alloc, text, &signs, out),
        _ => Err(CaseFault::Unreadable),
    }
}

/// Writes the sign of a call.
fn put_sign(alloc: Global, text: &str, signs: &[Sign], out: &mut String) -> Result<(), CaseFault> {
    let sign = call(alloc, text)?.sign(signs);
    put_word(out, sign_word(sign))
}

/// Writes how a call moves with an argument, of a text with both.
fn put_trend(alloc: Global, text: &str, signs: &[Sign], out: &mut String) -> Result<(), CaseFault> {
    match text.split_once(' ') {
        Some((argument, text)) => {
            let (argument, call) = both(count(argument), call(alloc, text))?;
            put_word(out, trend_word(call.trend(argument as usize, signs)))
        }
        None => Err(CaseFault::Unreadable),
    }
}

/// Writes the bend of a nonlinear call.
fn put_bend(out: &mut String, text: &str) -> Result<(), CaseFault> {
    match atom(text)?.bend() {
        Bend::Convex => put_word(out, "convex"),
        Bend::Concave => put_word(out, "concave"),
    }
}
