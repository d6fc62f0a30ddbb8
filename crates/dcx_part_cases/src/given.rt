//! Whether a point and a setting give a leaf its array.
use crate::calls::call;
use crate::lines::{CaseFault, point, setting};
use crate::parts::{both, put_truth};
use dcx_point::{Point, Setting};
use std::alloc::Global;

/// `CALL | NAME ARRAY; NAME ARRAY | NAME ARRAY => yes` or `no`: the arrays of the point, and those of the setting.
pub(crate) fn put_given(
    alloc: Global,
    first: &str,
    rest: &[&str],
    out: &mut String,
) -> Result<(), CaseFault> {
    match *rest {
        [of_point, of_setting] => {
            let (point, setting) = both(point(alloc, of_point), setting(alloc, of_setting))?;
            put_is_given(alloc, first, &point, &setting, out)
        }
        _ => Err(CaseFault::Unreadable),
    }
}

/// Writes whether a point and a setting give a leaf its array.
fn put_is_given(
    alloc: Global,
    text: &str,
    point: &Point,
    setting: &Setting,
    out: &mut String,
) -> Result<(), CaseFault> {
    let is_given = call(alloc, text)?.is_given(point, setting);
    put_truth(out, is_given)
}
