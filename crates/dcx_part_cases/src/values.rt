//! Values of calls, which take no leaf.
ghost use Rattle.std.specs.Prelude.{◌≡◌, IfOk, map};
ghost use Rattle.dcx_atom.specs.Arrays.{sides_list, array_sides};

use crate::calls::call;
use crate::lines::{CaseFault, put_value};
use crate::parts::{all, both, put_word};
use dcx_atom::Array;
use dcx_call::Call;
use dcx_point::{Point, Setting};
use dcx_shape::Shape;
use std::alloc::{AllocError, Global};

/// `CALL | ARRAY | .. => ARRAY`: the value, `none` where the call has none, or why it stops.
pub(crate) fn put_values(
    alloc: Global,
    first: &str,
    rest: &[&str],
    out: &mut String,
) -> Result<(), CaseFault> {
    let (args, call) = both(all(alloc, rest), call(alloc, first))?;
    put_of_call(alloc, &call, &args, out)
}

/// The shapes of arrays.
fn shapes(alloc: Global, args: &[Array]) -> Result<Vec<Shape>, AllocError>
    ensures { IfOk result (λ v. v.items ≡ map (λ x. x.shape) args.now) }
{
    args.iter().map(|arg| arg.shape).collect(alloc)
}

/// The shapes of arrays, by their sides.
fn shapes_of(alloc: Global, args: &[Array]) -> Result<Vec<Shape>, AllocError>
    ensures { IfOk result (λ v. sides_list v.items ≡ array_sides args.now) }
{
    shapes(alloc, args)
}

/// Writes what a call of arrays gives.
fn put_of_call(
    alloc: Global,
    call: &Call,
    args: &[Array],
    out: &mut String,
) -> Result<(), CaseFault> {
    let shapes = shapes_of(alloc, args)?;
    put_without_names(alloc, call, args, &shapes, out)
}

/// Writes what a call gives where nothing is under a name.
fn put_without_names(
    alloc: Global,
    call: &Call,
    args: &[Array],
    shapes: &[Shape],
    out: &mut String,
) -> Result<(), CaseFault>
    requires { sides_list shapes.now ≡ array_sides args.now }
{
    let point = Point::empty(alloc);
    let setting = Setting::empty(alloc);
    put_formed(alloc, call, &point, &setting, args, shapes, out)
}

/// Writes the value of a call, where it has a shape and each leaf its array.
fn put_formed(
    alloc: Global,
    call: &Call,
    point: &Point,
    setting: &Setting,
    args: &[Array],
    shapes: &[Shape],
    out: &mut String,
) -> Result<(), CaseFault>
    requires { sides_list shapes.now ≡ array_sides args.now }
{
    if call.shape(shapes).is_none() || !call.is_given(point, setting) {
        return put_word(out, "none");
    }
    put_value(out, &call.value(alloc, point, setting, args))
}
